ghost use Rattle.std.specs.Prelude.{◌≡◌, ◌↔◌, true, false};
ghost use Rattle.std.specs.Ordering.{is_lt};
ghost use Rattle.address.specs.Ids.{ViewId, view_id_cmp};
ghost use Rattle.keyed_state.specs.declared.token.Token.{Token as TokenValue};
ghost use Rattle.keyed_state.specs.Tokens.{IsBelow, next_token, token_cmp, is_token};

/// The law of tokens: they are ordered, and none is below itself. The next one is above the last, whatever the view of the command; and it is above each token of a lower view
/// than the command's. It does nothing.
pub fn tokens_are_ordered()
    ensures next { (view : ViewId) (last : TokenValue) → IsBelow last (next_token view last) }
    ensures above_views { (view : ViewId) (last t : TokenValue) → is_lt (view_id_cmp t.view view) ≡ true → IsBelow t (next_token view last) }
    ensures trans { (a b c : TokenValue) → IsBelow a b → IsBelow b c → IsBelow a c }
    ensures irreflexive { (a : TokenValue) → is_lt (token_cmp a a) ≡ false }
    ensures same { (a b : TokenValue) → (is_token a b ≡ true) ↔ (a ≡ b) }
{}
