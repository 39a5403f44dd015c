//! Names, partial names and paths at their limits and at every byte, as tests.
#![tactic(auto)]

#[cfg(test)]
mod tests {
    use faults::kind::Kind;
    use faults::lawful::LawfulText;
    use names::name::{Name, PartialName};
    use names::part::Part;
    use names::path::Path;
    use std::array;
    use std::test::Fail;

    // The four numbers of the fault that the text has: its number, its layer, its text and its place.
    // Each crate of tests says by itself what it expects of a fault.
    fn told<T: LawfulText + Drop>(text: &[u8]) -> Option<(u8, u8, usize, usize)> {
        T::new(text).err().map(|fault| {
            (
                fault.kind.number(),
                fault.kind.layer(),
                fault.text,
                fault.place,
            )
        })
    }

    // The table of faults, row by row.
    #[test]
    fn kinds(rt: HostRuntime) {
        let table: [(Kind, u8, u8); 23] = [
            (Kind::ByteNotAllowed, 1, 1),
            (Kind::WordMissing, 2, 1),
            (Kind::WordTooLong, 3, 1),
            (Kind::NameTooLong, 4, 1),
            (Kind::ByteNotAllowedInList, 5, 2),
            (Kind::WordTooLongInList, 3, 2),
            (Kind::ItemMissing, 6, 2),
            (Kind::BracketUnmatched, 7, 2),
            (Kind::BracketsTooDeep, 8, 2),
            (Kind::GroupNameUnlawful, 9, 2),
            (Kind::TextTooLong, 10, 2),
            (Kind::GroupNotInBook, 11, 3),
            (Kind::TooManyGroups, 12, 3),
            (Kind::GroupLeadsToItself, 13, 3),
            (Kind::NoSuchProcess, 14, 4),
            (Kind::NoListInForce, 15, 4),
            (Kind::PathUnlawful, 16, 4),
            (Kind::NoRowFree, 17, 4),
            (Kind::NoSpaceForRecord, 18, 5),
            (Kind::WordsNotAsWritten, 19, 5),
            (Kind::VerdictDiffers, 20, 5),
            (Kind::NoSpaceForOutcome, 21, 5),
            (Kind::LeaveNotOpenHere, 22, 5),
        ];
        assert!(rt;
            table.iter().all(|(kind, number, layer)| kind.number() == *number
                && kind.layer() == *layer)
        );
    }

    // Words of 31 letters joined by dots, `N` bytes in all.
    fn dotted<const N: usize>() -> [u8; N] {
        array::from_fn(|i| if i % 32 == 31 { b'.' } else { b'w' })
    }

    // Letters with a mark at every second place, `N` bytes in all.
    fn alternating<const N: usize>(mark: u8) -> [u8; N] {
        array::from_fn(|i| if i % 2 == 1 { mark } else { b'a' })
    }

    // Said anew in each crate of tests: none asks the code that it tests.
    fn is_word_byte(b: u8) -> bool {
        b.is_ascii_alphanumeric() || matches!(b, b'-' | b'_')
    }

    fn is_mark(b: u8) -> bool {
        matches!(b, b'.' | b'@' | b'+')
    }

    #[test]
    fn every_byte_alone(rt: HostRuntime) {
        for b in 0..=255u8 {
            let text = [b];
            let expected = if is_word_byte(b) {
                None
            } else {
                Some((if is_mark(b) { 2 } else { 1 }, 1, 0, 0))
            };
            assert!(rt; told::<Name>(&text) == expected);
            assert!(rt; told::<PartialName>(&text) == expected);
            let place = if b == b'/' { 1 } else { 0 };
            assert!(rt; told::<Path>(&text) == Some((16, 4, 0, place)));
        }
    }

    // The fault of a text whose second byte is no word's: a mark leaves a word due at the end.
    fn behind_a_word(is_mark: bool) -> Option<(u8, u8, usize, usize)> {
        if is_mark {
            Some((2, 1, 0, 2))
        } else {
            Some((1, 1, 0, 1))
        }
    }

    #[test]
    fn every_byte_after_a_word(rt: HostRuntime) {
        for b in 0..=255u8 {
            let text = [b'a', b];
            let path = [b'/', b];
            if is_word_byte(b) {
                assert!(rt; told::<Name>(&text).is_none());
                assert!(rt; told::<PartialName>(&text).is_none());
                assert!(rt; told::<Path>(&path).is_none());
            } else {
                assert!(rt; told::<Name>(&text) == behind_a_word(is_mark(b)));
                assert!(rt; told::<PartialName>(&text) == behind_a_word(b == b'.'));
                assert!(rt; told::<Path>(&path) == Some((16, 4, 0, 1)));
            }
        }
    }

    #[test]
    fn name_bytes(rt: HostRuntime) {
        assert!(rt; told::<Name>(b"") == Some((2, 1, 0, 0)));
        assert!(rt; told::<Name>(&dotted::<254>()).is_none());
        assert!(rt; told::<Name>(&dotted::<255>()).is_none());
        assert!(rt; told::<Name>(&dotted::<256>()) == Some((4, 1, 0, 255)));
        assert!(rt; told::<Name>(&[b'!'; 256]) == Some((4, 1, 0, 255)));
        assert!(rt; told::<Name>(&[0; 4095]) == Some((4, 1, 0, 255)));
    }

    #[test]
    fn name_parts(rt: HostRuntime) {
        assert!(rt; told::<Name>(&alternating::<61>(b'+')).is_none());
        assert!(rt; told::<Name>(&alternating::<63>(b'@')).is_none());
        assert!(rt; told::<Name>(&alternating::<64>(b'+')) == Some((2, 1, 0, 64)));
        assert!(rt; told::<Name>(&alternating::<65>(b'+')) == Some((4, 1, 0, 63)));
        assert!(rt; told::<Name>(&alternating::<255>(b'.')) == Some((4, 1, 0, 63)));
    }

    #[test]
    fn parts_in_order(rt: HostRuntime) -> Result<(), Fail> {
        let name = Name::new(b"lock.up@ted+app")?;
        assert!(rt; name.part_count() == 7);
        let mut parts = name.parts();
        assert!(rt; parts.next() == Some((0, Part::Word(b"lock"))));
        assert!(rt; parts.next() == Some((4, Part::Dot)));
        assert!(rt; parts.next() == Some((5, Part::Word(b"up"))));
        assert!(rt; parts.next() == Some((7, Part::At)));
        assert!(rt; parts.next() == Some((8, Part::Word(b"ted"))));
        assert!(rt; parts.next() == Some((11, Part::Plus)));
        assert!(rt; parts.next() == Some((12, Part::Word(b"app"))));
        assert!(rt; parts.next().is_none());
        assert!(rt; parts.next().is_none());
        Ok(())
    }

    // The place of the last part. A loop over a walk ends by what the walk promises, and asks its writer for no measure.
    fn last_place(name: &Name) -> usize {
        let mut last = 0;
        for (place, _) in name.parts() {
            last = place;
        }
        last
    }

    #[test]
    fn parts_in_a_loop(rt: HostRuntime) -> Result<(), Fail> {
        assert!(rt; last_place(&Name::new(b"lock.up@ted+app")?) == 12);
        assert!(rt; last_place(&Name::new(b"lock")?) == 0);
        Ok(())
    }

    #[test]
    fn words(rt: HostRuntime) {
        assert!(rt; told::<Name>(&[b'w'; 31]).is_none());
        assert!(rt; told::<Name>(&[b'w'; 32]).is_none());
        assert!(rt; told::<Name>(&[b'w'; 33]) == Some((3, 1, 0, 32)));
        assert!(rt; told::<PartialName>(&[b'w'; 33]) == Some((3, 1, 0, 32)));
        assert!(rt; told::<Name>(&[b'w'; 255]) == Some((3, 1, 0, 32)));
        assert!(rt; told::<Name>(b"a b") == Some((1, 1, 0, 1)));
        assert!(rt; told::<Name>(b"a++b") == Some((2, 1, 0, 2)));
    }

    #[test]
    fn partial_names(rt: HostRuntime) {
        assert!(rt; told::<PartialName>(b"") == Some((2, 1, 0, 0)));
        assert!(rt; told::<PartialName>(b"lock.upper").is_none());
        assert!(rt; told::<PartialName>(&dotted::<63>()).is_none());
        assert!(rt; told::<PartialName>(&dotted::<64>()) == Some((2, 1, 0, 64)));
        assert!(rt;
            told::<PartialName>(
                b"wwwwwwwwwwwwwwwwwwwwwwwwwwwwwwww.lower.upper.gate.raise.keeper.x"
            ).is_none()
        );
        assert!(rt;
            told::<PartialName>(
                b"wwwwwwwwwwwwwwwwwwwwwwwwwwwwwwww.lower.upper.gate.raise.keeper.xy"
            ) == Some((4, 1, 0, 64))
        );
        assert!(rt; told::<PartialName>(&alternating::<63>(b'.')).is_none());
        assert!(rt; told::<PartialName>(&[b'!'; 65]) == Some((4, 1, 0, 64)));
        assert!(rt; told::<PartialName>(b"a@b") == Some((1, 1, 0, 1)));
        assert!(rt; told::<PartialName>(b"a.@b") == Some((2, 1, 0, 2)));
        assert!(rt; told::<PartialName>(b"a+b") == Some((1, 1, 0, 1)));
    }

    #[test]
    fn paths(rt: HostRuntime) {
        assert!(rt; told::<Path>(b"") == Some((16, 4, 0, 0)));
        assert!(rt; told::<Path>(b"/a//b") == Some((16, 4, 0, 3)));
        assert!(rt; told::<Path>(b"/a/") == Some((16, 4, 0, 3)));
        assert!(rt; told::<Path>(b"/upper/gate-1").is_none());
        assert!(rt; told::<Path>(b"/wwwwwwwwwwwwwwwwwwwwwwwwwwwwwwwww") == Some((16, 4, 0, 33)));
        assert!(rt;
            told::<Path>(
                b"/wwwwwwwwwwwwwwwwwwwwwwwwwwwwwwww/upper/lower/gates/gate1/raise"
            ).is_none()
        );
        assert!(rt;
            told::<Path>(
                b"/wwwwwwwwwwwwwwwwwwwwwwwwwwwwwwww/upper/lower/gates/gate1/raised"
            ).is_none()
        );
        assert!(rt;
            told::<Path>(b"/wwwwwwwwwwwwwwwwwwwwwwwwwwwwwwww/upper/lower/gates/gate1/raised1")
                == Some((16, 4, 0, 64))
        );
        assert!(rt; told::<Path>(&[b'/'; 65]) == Some((16, 4, 0, 64)));
        assert!(rt; told::<Path>(&[b'/'; 64]) == Some((16, 4, 0, 1)));
    }
}
