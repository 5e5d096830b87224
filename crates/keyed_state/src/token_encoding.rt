//! Tokens as bytes.

ghost use Rattle.std.specs.Prelude.{◌≡◌, ◌≤◌, ◌+◌, ◌++◌, vec_len, vec_capacity};
ghost use Rattle.keyed_state.specs.Tokens.{IsViewId};
ghost use Rattle.keyed_state.specs.Spelling.{view_id_bytes, token_bytes};
ghost use Rattle.keyed_state.specs.declared.TheConstants.{VIEW_ID_BYTES, TOKEN_BYTES};

use crate::Token;
use address::ViewId;
use big_endian::{put_address, put_u64};

/// What a program holds as a view id is one. It does nothing; its clause is a fact for proofs.
pub fn known_view_id(view: ViewId)
    ensures { IsViewId view }
{
    let _counter = view.counter();
    let creator = view.creator();
    let _node = creator.node().number();
    let _incarnation = creator.incarnation();
}

/// Appends a view id: its counter in eight bytes, and its creator.
pub fn put_view_id(view: ViewId, out: &mut Vec<u8>)
    requires { vec_len out.old + VIEW_ID_BYTES ≤ vec_capacity out.old }
    ensures items { out.new.items ≡ out.old.items ++ view_id_bytes view }
    ensures room { vec_capacity out.old ≤ vec_capacity out.new }
    ensures fits { IsViewId view }
{
    put_u64(view.counter(), out);
    put_address(view.creator(), out);
}

/// Appends a token: its view id, and its count in eight bytes.
pub fn put_token(token: Token, out: &mut Vec<u8>)
    requires { vec_len out.old + TOKEN_BYTES ≤ vec_capacity out.old }
    ensures items { out.new.items ≡ out.old.items ++ token_bytes token }
    ensures room { vec_capacity out.old ≤ vec_capacity out.new }
    ensures fits { IsViewId token.view }
{
    put_view_id(token.view, out);
    put_u64(token.count, out);
}
