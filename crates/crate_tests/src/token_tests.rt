use crate::fixtures::{first_at, first_view, token};
use address::ViewId;
use big_endian::Reader;
use keyed_state::{
    TOKEN_BYTES, Token, known_view_id, put_token, put_view_id, token_from, tokens_are_ordered,
    view_id_from,
};

// By hand from docs/RECEIVERS.md, "Tokens": the view id 1@1.1, and behind it the token 1@1.1/2.
const BOTH: &[u8] =
    b"\x00\x00\x00\x00\x00\x00\x00\x01\x00\x01\x00\x00\x00\x01\x00\x00\x00\x00\x00\x00\x00\x01\x00\x01\x00\x00\x00\x01\x00\x00\x00\x00\x00\x00\x00\x02";

#[test]
fn the_next_token_goes_on_from_the_last(rt: HostRuntime) {
    tokens_are_ordered();
    known_view_id(first_view());
    let third = ViewId::new(3, first_at(1)).unwrap();
    assert!(rt;
        Token::least().next(first_view()) == token(1),
        "in the same view"
    );
    assert!(rt;
        Token::least().next(third)
            == Token {
                view: third,
                count: 1
            },
        "in a later view"
    );
}

#[test]
fn a_token_is_spelled_behind_its_view(rt: HostRuntime) {
    let Ok(mut bytes) = Vec::with_capacity(rt.alloc(), 2 * TOKEN_BYTES) else {
        return;
    };
    put_view_id(first_view(), &mut bytes);
    put_token(token(2), &mut bytes);
    assert!(rt; bytes.as_slice() == BOTH, "both are written");
    let mut from = Reader::new(BOTH);
    assert!(rt;
        view_id_from(&mut from) == Some(first_view()),
        "the view id is read"
    );
    assert!(rt; token_from(&mut from) == Some(token(2)), "and the token");
}
