//! List texts at their limits and at every byte, and the tokens of a text, as tests.
#![tactic(auto)]

#[cfg(test)]
mod tests {
    use faults::lawful::LawfulText;
    use lists::list::AccessList;
    use lists::reader::Tokens;
    use lists::token::{Lexeme, Token};

    // Whether the text is refused for a fault with this number, layer 2, text 0 and this place.
    // Each crate of tests says by itself what it expects of a fault.
    fn list(text: &[u8], number: u8, place: usize) -> bool {
        AccessList::new(text).is_err_and(|fault| {
            fault.kind.number() == number
                && fault.kind.layer() == 2
                && fault.text == 0
                && fault.place == place
        })
    }

    // Said anew in each crate of tests: none asks the code that it tests.
    fn is_word_byte(b: u8) -> bool {
        b.is_ascii_alphanumeric() || b == b'-' || b == b'_'
    }

    fn is_atom(b: u8) -> bool {
        is_word_byte(b) || b == b'.' || b == b'@' || b == b'+' || b == b'!'
    }

    #[test]
    fn every_byte_alone(rt: HostRuntime) {
        for b in 0..=255u8 {
            let text = [b];
            assert!(rt;
                match b {
                    b' ' => AccessList::new(&text).is_ok(),
                    b'*' | b'|' => list(&text, 6, 0),
                    b')' => list(&text, 7, 0),
                    b'(' => list(&text, 6, 1),
                    b'{' => list(&text, 9, 1),
                    _ => if is_atom(b) {
                        AccessList::new(&text).is_ok()
                    } else {
                        list(&text, 5, 0)
                    },
                }
            );
        }
    }

    #[test]
    fn every_byte_after_an_item(rt: HostRuntime) {
        for b in 0..=255u8 {
            let text = [b'a', b];
            assert!(rt;
                match b {
                    b' ' | b'*' => AccessList::new(&text).is_ok(),
                    b'|' => list(&text, 6, 2),
                    b')' => list(&text, 7, 1),
                    b'(' => list(&text, 6, 2),
                    b'{' => list(&text, 9, 2),
                    _ => if is_atom(b) {
                        AccessList::new(&text).is_ok()
                    } else {
                        list(&text, 5, 1)
                    },
                }
            );
        }
    }

    #[test]
    fn every_byte_in_braces(rt: HostRuntime) {
        for b in 0..=255u8 {
            let name = is_word_byte(b) || b == b'$' || b == b'/' || b == b'.';
            assert!(rt;
                if name {
                    AccessList::new(&[b'{', b, b'}']).is_ok()
                } else {
                    list(&[b'{', b, b'}'], 9, if b == b' ' { 2 } else { 1 })
                }
            );
            assert!(rt;
                if name || b == b' ' || b == b'}' {
                    true
                } else {
                    list(&[b'{', b'g', b, b'}'], 9, 2)
                }
            );
        }
    }

    #[test]
    fn bytes(rt: HostRuntime) {
        assert!(rt; AccessList::new(b"").is_ok());
        assert!(rt; AccessList::new(&[b' '; 511]).is_ok());
        assert!(rt; AccessList::new(&[b' '; 512]).is_ok());
        assert!(rt; list(&[b' '; 513], 10, 512));
        assert!(rt; AccessList::new(&[b'!'; 512]).is_ok());
        assert!(rt; list(&[b'}'; 512], 5, 0));
        assert!(rt; list(&[b'}'; 513], 10, 512));
        assert!(rt; list(&[0; 4095], 10, 512));
    }

    #[test]
    fn words_and_group_names(rt: HostRuntime) {
        assert!(rt; AccessList::new(&[b'w'; 32]).is_ok());
        assert!(rt; list(&[b'w'; 33], 3, 32));
        assert!(rt; list(&[b'w'; 512], 3, 32));
        assert!(rt; AccessList::new(b"{gggggggggggggggggggggggggggggggg}").is_ok());
        assert!(rt; list(b"{ggggggggggggggggggggggggggggggggg}", 9, 33));
        assert!(rt; AccessList::new(b"{ g }").is_ok());
        assert!(rt; list(b"{ }", 9, 2));
        assert!(rt; list(b"{a b}", 9, 3));
        assert!(rt; list(b"{g", 9, 2));
    }

    #[test]
    fn brackets(rt: HostRuntime) {
        assert!(rt; AccessList::new(b"(((((((((((((((a)))))))))))))))").is_ok());
        assert!(rt; AccessList::new(b"((((((((((((((((a))))))))))))))))").is_ok());
        assert!(rt; list(b"(((((((((((((((((a)))))))))))))))))", 8, 16));
        assert!(rt; list(&[b'('; 512], 8, 16));
        assert!(rt; list(b"((((((((((((((((", 6, 16));
        assert!(rt; list(b"(a (b)", 7, 0));
        assert!(rt; list(b"(a)(b", 7, 3));
        assert!(rt; list(b"((a)", 7, 0));
        assert!(rt; list(b"(a|", 6, 3));
        assert!(rt; list(b"(a|)", 6, 3));
        assert!(rt; list(b"a|)", 7, 2));
    }

    #[test]
    fn tokens(rt: HostRuntime) {
        let mut tokens = Tokens::new(b" log in|{ g }* ");
        assert!(rt; tokens.next_token() == Ok(Some(lexeme(Token::Word(b"log"), 1, 4))));
        assert!(rt; tokens.next_token() == Ok(Some(lexeme(Token::Word(b"in"), 5, 7))));
        assert!(rt; tokens.next_token() == Ok(Some(lexeme(Token::Bar, 7, 8))));
        assert!(rt; tokens.next_token() == Ok(Some(lexeme(Token::Group(b"g"), 8, 13))));
        assert!(rt; tokens.next_token() == Ok(Some(lexeme(Token::Star, 13, 14))));
        assert!(rt; tokens.next_token() == Ok(None));
    }

    // The place of the last token. A loop over a walk ends by what the walk promises, and asks its writer for no measure.
    fn last_place(list: &AccessList) -> usize {
        let mut last = 0;
        for lexeme in list.tokens() {
            last = lexeme.place;
        }
        last
    }

    #[test]
    fn tokens_in_a_loop(rt: HostRuntime) {
        let last = AccessList::new(b" log in|{ g }* ").map(|list| last_place(&list));
        assert!(rt; last == Ok(13));
    }

    // A fault leaves the reader where it is, so that it is told again.
    #[test]
    fn a_fault_is_told_again(rt: HostRuntime) {
        let mut tokens = Tokens::new(b"a  ? b");
        assert!(rt; tokens.next_token() == Ok(Some(lexeme(Token::Word(b"a"), 0, 1))));
        let told = tokens.next_token();
        assert!(rt; told.is_err_and(|fault| fault.kind.number() == 5 && fault.place == 3));
        assert!(rt; tokens.next_token() == told);
        assert!(rt; tokens.next_token() == told);
    }

    fn lexeme(token: Token<'_>, place: usize, end: usize) -> Lexeme<'_> {
        Lexeme { token, place, end }
    }
}
