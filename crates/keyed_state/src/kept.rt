ghost use Rattle.std.specs.Prelude.{◌≡◌, ◌≤◌, ◌+◌, ◌++◌, vec_len, vec_capacity, IfOk};
ghost use Rattle.address.specs.declared.limits.TheConstants.{STATE};
ghost use Rattle.big_endian.specs.Reading.{IsReadOrNone};
ghost use Rattle.keyed_state.specs.States.{Form};
ghost use Rattle.keyed_state.specs.StateLaws.{FormLaws};

use crate::Token;
use big_endian::Reader;
use std::alloc::{AllocError, Global};

/// What a key has in such a state: it was given with a token, and is spelled in bytes that are read back.
pub trait Kept: Drop + Sized {
    /// How it is spelled and read, and which there are.
    ghost form: { Form Self };

    ghost laws: { FormLaws form };

    /// The token with which it was given.
    fn token(&self) -> Token
        ensures { result ≡ form.token_of self.now };

    /// In how many bytes it is spelled.
    fn size(&self) -> usize
        requires { form.size_of self.now ≤ STATE }
        ensures { result ≡ form.size_of self.now };

    /// Appends its bytes.
    fn put(&self, out: &mut Vec<u8>)
        requires value { form.IsValue self.now }
        requires few { form.size_of self.now ≤ STATE }
        requires room { vec_len out.old + form.size_of self.now ≤ vec_capacity out.old }
        ensures items { out.new.items ≡ out.old.items ++ form.bytes_of self.now }
        ensures room { vec_capacity out.old ≤ vec_capacity out.new };

    /// Takes one off the front of what a reader has left; `None` where the bytes begin with none, and then nothing is said of the reader.
    fn read(alloc: Global, from: &mut Reader<'_>) -> Result<Option<Self>, AllocError>
        ensures { IfOk result (λ v. IsReadOrNone (λ x. (x, from.new)) v (form.read_at from.old)) };
}
