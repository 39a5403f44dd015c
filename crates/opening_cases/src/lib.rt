//! Opening lists through books: what is reached in which order, and each fault at its place, as tests.
#![tactic(auto)]

pub mod long_book;

#[cfg(test)]
mod tests {
    use super::long_book::{LONGEST_TEXT, LongBook};
    use books::book::Book;
    use books::divider::Divider;
    use books::group::Group;
    use books::not_copied::NotCopied;
    use books::table::{TABLE_ROWS, TableBook};
    use faults::fault::Fault;
    use faults::lawful::LawfulText;
    use lists::group_name::GroupName;
    use lists::list::AccessList;
    use openings::in_book::InBook;
    use openings::membership::Membership;
    use openings::open::open;
    use openings::opened::Opened;
    use openings::opening::Opening;
    use openings::supposed::Supposed;
    use std::array;

    // The name `gNN` of a group by the last two digits of its number.
    fn numbered(k: u8) -> [u8; 3] {
        [b'g', b'0' + k / 10 % 10, b'0' + k % 10]
    }

    // The text that refers to that group.
    fn reference(k: u8) -> [u8; 5] {
        [b'{', b'g', b'0' + k / 10 % 10, b'0' + k % 10, b'}']
    }

    // Adds groups of which each names the next, up to the last, whose text is this one.
    fn add_chain(book: &mut TableBook<'_>, last: u8, text: &[u8]) -> bool {
        for k in 0..last {
            if book.add(&numbered(k), &reference(k + 1)).is_err() {
                return false;
            }
        }
        book.add(&numbered(last), text).is_ok()
    }

    // Opens a list through a book, from its text.
    fn open_text<B: Book>(list: &[u8], book: &B) -> Result<Opened, Fault> {
        open(&AccessList::new(list)?, book)
    }

    // Whether the list opens, and reaches groups of these names in this order.
    fn reaches<B: Book>(book: &B, list: &[u8], names: &[&[u8]]) -> bool {
        open_text(list, book).is_ok_and(|opened| {
            opened.names().len() == names.len()
                && opened.texts().len() == names.len()
                && opened.leads().len() == names.len()
                && opened
                    .names()
                    .iter()
                    .zip(names)
                    .all(|(name, wanted)| name.as_bytes() == *wanted)
        })
    }

    // Whether the fault has this number and layer, in this text at this place.
    fn is_fault(fault: Fault, number: u8, layer: u8, text: usize, place: usize) -> bool {
        fault.kind.number() == number
            && fault.kind.layer() == layer
            && fault.text == text
            && fault.place == place
    }

    // Whether the list is refused with this number and layer, in this text at this place.
    fn refuses<B: Book>(
        book: &B,
        list: &[u8],
        number: u8,
        layer: u8,
        text: usize,
        place: usize,
    ) -> bool {
        open_text(list, book).is_err_and(|fault| is_fault(fault, number, layer, text, place))
    }

    #[test]
    fn groups_in_the_order_of_meeting(rt: HostRuntime) {
        let mut rows = [Group::spare(); TABLE_ROWS];
        let mut book = TableBook::new(&mut rows);
        assert!(rt; reaches(&book, b"", &[]));
        assert!(rt; reaches(&book, b"a|b", &[]));
        assert!(rt; book.add(b"day", b"panel@{keepers}").is_ok());
        assert!(rt; book.add(b"night", b"{day} | {relief}").is_ok());
        assert!(rt; book.add(b"keepers", b"ann | bob").is_ok());
        assert!(rt; book.add(b"relief", b"carl").is_ok());
        assert!(rt;
            reaches(
                &book,
                b"{day}@raise | {night}@raise",
                &[b"day", b"night", b"keepers", b"relief"]
            )
        );
        assert!(rt;
            reaches(
                &book,
                b"{night}{day}{night}",
                &[b"night", b"day", b"relief", b"keepers"]
            )
        );
        assert!(rt; reaches(&book, b"{ relief } {relief}", &[b"relief"]));
    }

    #[test]
    fn thirty_two_groups_and_one_more(rt: HostRuntime) {
        let mut rows = [Group::spare(); TABLE_ROWS];
        let mut book = TableBook::new(&mut rows);
        assert!(rt; add_chain(&mut book, 31, b"a"));
        assert!(rt; open_text(b"{g00}", &book).is_ok());
        assert!(rt; add_chain(&mut book, 32, b"a"));
        assert!(rt; refuses(&book, b"{g00}", 12, 3, 32, 0));
        assert!(rt; refuses(&book, b"a {g00}", 12, 3, 32, 0));
        assert!(rt; open_text(b"{g01}", &book).is_ok());
        // A 33rd group is one too many also where the book lacks it.
        assert!(rt; book.remove(b"g32").is_ok());
        assert!(rt; refuses(&book, b"{g00}", 12, 3, 32, 0));
        assert!(rt; refuses(&book, b"{g01}", 11, 3, 31, 0));
    }

    // References to one group after another, `N` bytes in all.
    fn references<const N: usize>() -> [u8; N] {
        array::from_fn(|i| match i % 5 {
            0 => b'{',
            1 => b'g',
            2 => b'0' + (i / 50 % 10) as u8,
            3 => b'0' + (i / 5 % 10) as u8,
            _ => b'}',
        })
    }

    // Thirty-three references in one text: the last is one too many, and is told at its `{`.
    #[test]
    fn a_group_too_many_in_the_list(rt: HostRuntime) {
        let mut rows = [Group::spare(); TABLE_ROWS];
        let mut book = TableBook::new(&mut rows);
        for k in 0..33 {
            assert!(rt; book.add(&numbered(k), b"a").is_ok());
        }
        assert!(rt; refuses(&book, &references::<165>(), 12, 3, 0, 160));
        assert!(rt; open_text(&references::<160>(), &book).is_ok());
    }

    #[test]
    fn what_a_table_book_answers(rt: HostRuntime) {
        let mut rows = [Group::spare(); TABLE_ROWS];
        let mut book = TableBook::new(&mut rows);
        assert!(rt; book.add(b"g", b"a|b").is_ok());
        assert!(rt; book.text_len(b"g") == Some(3));
        assert!(rt; book.text_len(b"h").is_none());
        assert!(rt; book.text_len(b"").is_none());
        assert!(rt; book.text_len(&[b'g'; 33]).is_none());
        let mut buffer = [b'x'; 4];
        assert!(rt; book.copy_text(b"h", &mut buffer) == Err(NotCopied::NameLacking));
        assert!(rt; book.copy_text(b"g", &mut buffer[..2]) == Err(NotCopied::BufferTooShort));
        assert!(rt; buffer == [b'x'; 4]);
        assert!(rt; book.copy_text(b"g", &mut buffer) == Ok(3));
        assert!(rt; buffer == *b"a|bx");
        assert!(rt; book.copy_text(b"g", &mut buffer[1..]) == Ok(3));
        assert!(rt; buffer == *b"aa|b");
        // A refusal leaves the group as it was.
        assert!(rt; book.add(b"g", &[b' '; 513]).is_err());
        assert!(rt; book.text_len(b"g") == Some(3));
        // A text may have any content. It is told when a list reaches it.
        assert!(rt; book.add(b"g", &[0, 255, b'{']).is_ok());
        assert!(rt; book.text_len(b"g") == Some(3));
        assert!(rt; refuses(&book, b"a {g}", 5, 2, 1, 0));
        assert!(rt; refuses(&book, &[b'{', 0, b'}'], 9, 2, 0, 1));
        assert!(rt; refuses(&book, &[b'a', 255], 5, 2, 0, 1));
    }

    #[test]
    fn circles(rt: HostRuntime) {
        let mut rows = [Group::spare(); TABLE_ROWS];
        let mut book = TableBook::new(&mut rows);
        // Of one.
        assert!(rt; book.add(b"g", b"a {g}").is_ok());
        assert!(rt; refuses(&book, b"{g}", 13, 3, 1, 2));
        // Of two, reached from either.
        assert!(rt; book.add(b"g", b"a {h}").is_ok());
        assert!(rt; book.add(b"h", b"{i}|{g}").is_ok());
        assert!(rt; book.add(b"i", b"b").is_ok());
        assert!(rt; refuses(&book, b"{g}", 13, 3, 1, 2));
        assert!(rt; refuses(&book, b"{h}", 13, 3, 1, 4));
        assert!(rt; reaches(&book, b"{i}", &[b"i"]));
        // Of many, reached late.
        assert!(rt; add_chain(&mut book, 31, b"{g20}"));
        assert!(rt; refuses(&book, b"{g00}", 13, 3, 21, 0));
        assert!(rt; refuses(&book, b"{g25}", 13, 3, 1, 0));
    }

    // A circle is found by each reference of a text, and not by the last alone.
    #[test]
    fn circles_of_a_text_that_names_more(rt: HostRuntime) {
        let mut rows = [Group::spare(); TABLE_ROWS];
        let mut book = TableBook::new(&mut rows);
        assert!(rt; book.add(b"h", b"a").is_ok());
        assert!(rt; book.add(b"g", b"{g} {h}").is_ok());
        assert!(rt; refuses(&book, b"{g}", 13, 3, 1, 0));
        assert!(rt; book.add(b"g", b"{h} {g}").is_ok());
        assert!(rt; refuses(&book, b"{g}", 13, 3, 1, 4));
        assert!(rt; book.add(b"g", b"{i} {h}").is_ok());
        assert!(rt; book.add(b"i", b"{h} {g} {h}").is_ok());
        assert!(rt; refuses(&book, b"{h} {g}", 13, 3, 2, 0));
        assert!(rt; refuses(&book, b"{i}", 13, 3, 1, 4));
    }

    // Whether a walk over the groups that one group leads to gives these numbers, and then none again and again.
    fn leads<B: Book>(book: &B, list: &[u8], group: usize, numbers: &[usize]) -> bool {
        open_text(list, book).is_ok_and(|opened| {
            let mut walk = opened.leads().row(group).into_iter();
            let all = numbers.iter().all(|k| walk.next() == Some(*k));
            all && walk.next().is_none() && walk.next().is_none()
        })
    }

    #[test]
    fn which_group_leads_to_which(rt: HostRuntime) {
        let mut rows = [Group::spare(); TABLE_ROWS];
        let mut book = TableBook::new(&mut rows);
        assert!(rt; book.add(b"g", b"{k} {h} {k}").is_ok());
        assert!(rt; book.add(b"h", b"{i}").is_ok());
        assert!(rt; book.add(b"i", b"a").is_ok());
        assert!(rt; book.add(b"k", b"a").is_ok());
        assert!(rt; leads(&book, b"{g}", 0, &[1, 2, 3]));
        assert!(rt; leads(&book, b"{g}", 1, &[]));
        assert!(rt; leads(&book, b"{g}", 2, &[3]));
        assert!(rt; leads(&book, b"{k} {g}", 1, &[0, 2, 3]));
        assert!(rt; leads(&book, b"{h} {g}", 1, &[0, 2, 3]));
        assert!(rt; leads(&book, b"{k} {h}", 0, &[]));
        assert!(rt; leads(&book, b"{k} {h}", 1, &[2]));
    }

    #[test]
    fn what_is_told_first(rt: HostRuntime) {
        let mut rows = [Group::spare(); TABLE_ROWS];
        let mut book = TableBook::new(&mut rows);
        assert!(rt; book.add(b"g", b"{g}").is_ok());
        // A group that the book lacks comes before a circle, and so does a faulty text.
        assert!(rt; refuses(&book, b"{g}|{h}", 11, 3, 0, 4));
        assert!(rt; book.add(b"h", b"a|").is_ok());
        assert!(rt; refuses(&book, b"{g}|{h}", 6, 2, 2, 2));
        assert!(rt; book.add(b"h", b"{i}").is_ok());
        assert!(rt; refuses(&book, b"{g}|{h}", 11, 3, 2, 0));
        assert!(rt; book.add(b"i", b"a").is_ok());
        assert!(rt; refuses(&book, b"{g}|{h}", 13, 3, 1, 0));
        // The list's own faults come before all others.
        assert!(rt; refuses(&book, b"{g}|", 6, 2, 0, 4));
        assert!(rt; refuses(&book, b"{k}|(", 6, 2, 0, 5));
        assert!(rt; refuses(&book, &[b' '; 513], 10, 2, 0, 512));
    }

    #[test]
    fn groups_that_are_named_twice(rt: HostRuntime) {
        let mut rows = [Group::spare(); TABLE_ROWS];
        let mut book = TableBook::new(&mut rows);
        assert!(rt; book.add(b"g", b"{h}{h}|{i}").is_ok());
        assert!(rt; book.add(b"h", b"{i}{i}").is_ok());
        assert!(rt; book.add(b"i", b"a").is_ok());
        assert!(rt; reaches(&book, b"{g}{g}", &[b"g", b"h", b"i"]));
        assert!(rt; reaches(&book, b"{i}{h}{g}", &[b"i", b"h", b"g"]));
        assert!(rt; book.add(b"i", b"{h}{g}").is_ok());
        assert!(rt; refuses(&book, b"{g}{g}", 13, 3, 1, 0));
    }

    #[test]
    fn names_of_the_first_book_and_of_the_second(rt: HostRuntime) {
        let mut day_rows = [Group::spare(); TABLE_ROWS];
        let mut day = TableBook::new(&mut day_rows);
        let mut night_rows = [Group::spare(); TABLE_ROWS];
        let mut night = TableBook::new(&mut night_rows);
        assert!(rt; day.add(b"day", b"{night}").is_ok());
        assert!(rt; day.add(b"night", b"a|").is_ok());
        assert!(rt; night.add(b"night", b"b").is_ok());
        let book = Divider::new(day, night, b'd');
        assert!(rt;
            open_text(b"{day}", &book).is_ok_and(|opened| {
                opened.names().len() == 2
                    && opened
                        .texts()
                        .last()
                        .is_some_and(|text| text.as_bytes() == b"b".as_slice())
            })
        );
    }

    // A book that is lent to a divider is its owner's again, and can be changed.
    #[test]
    fn lent_book_is_changed_after(rt: HostRuntime) {
        let mut day_rows = [Group::spare(); TABLE_ROWS];
        let mut night_rows = [Group::spare(); TABLE_ROWS];
        let mut day = TableBook::new(&mut day_rows);
        let night = TableBook::new(&mut night_rows);
        assert!(rt; day.add(b"day", b"a").is_ok());
        let lent = Divider::new(&day, &night, b'd');
        assert!(rt; lent.text_len(b"day") == Some(1));
        assert!(rt; open_text(b"{day}", &lent).is_ok());
        assert!(rt; day.add(b"day", b"ab").is_ok());
        let (first, _) = Divider::new(day, night, b'd').into_books();
        assert!(rt; first.text_len(b"day") == Some(2));
    }

    #[test]
    fn sixty_four_rows_and_one_more(rt: HostRuntime) {
        let mut rows = [Group::spare(); TABLE_ROWS];
        let mut book = TableBook::new(&mut rows);
        for k in 0..64 {
            assert!(rt; book.add(&numbered(k), b"a").is_ok());
        }
        assert!(rt;
            book.add(b"more", b"a")
                .is_err_and(|fault| is_fault(fault, 17, 4, 0, 0))
        );
        // The name comes first, then the text, then the row.
        assert!(rt;
            book.add(b"", &[b' '; 513])
                .is_err_and(|fault| is_fault(fault, 9, 2, 0, 0))
        );
        assert!(rt;
            book.add(b"more", &[b' '; 513])
                .is_err_and(|fault| is_fault(fault, 10, 2, 0, 512))
        );
        // An equal name needs no row, and a freed row is used again.
        assert!(rt; book.add(&numbered(5), b"b").is_ok());
        assert!(rt; book.remove(&numbered(9)).is_ok());
        assert!(rt;
            book.remove(&numbered(9))
                .is_err_and(|fault| is_fault(fault, 11, 3, 0, 0))
        );
        assert!(rt; book.add(b"more", b"{g05}").is_ok());
        assert!(rt; book.add(b"most", b"a").is_err());
        assert!(rt; reaches(&book, b"{more}", &[b"more", b"g05"]));
    }

    #[test]
    fn the_longest_text_of_a_book(rt: HostRuntime) {
        let text = [b'a'; LONGEST_TEXT];
        let name = GroupName::new(b"g");
        assert!(rt; name.is_ok());
        if let Ok(name) = name {
            let book = LongBook::new(name, &text);
            assert!(rt; book.text_len(b"g") == Some(4095));
            assert!(rt; book.text_len(b"h").is_none());
            let mut buffer = [b'x'; 4096];
            assert!(rt; book.copy_text(b"h", &mut buffer) == Err(NotCopied::NameLacking));
            assert!(rt;
                book.copy_text(b"g", &mut buffer[..4094]) == Err(NotCopied::BufferTooShort)
            );
            assert!(rt; buffer == [b'x'; 4096]);
            assert!(rt; book.copy_text(b"g", &mut buffer) == Ok(4095));
            assert!(rt; buffer.starts_with(&text));
            assert!(rt; buffer[4095] == b'x');
            assert!(rt; refuses(&book, b"a {g}", 10, 2, 1, 512));
            assert!(rt; refuses(&book, b"{h}{g}", 11, 3, 0, 0));
            assert!(rt; reaches(&book, b"g", &[]));
        }
    }

    // Begins to open a list, from its text.
    fn begin<M: Membership>(list: &[u8], members: &M) -> Result<Opening, Fault> {
        Opening::new(&AccessList::new(list)?, members)
    }

    // Whether the text of the group of this name is due, or of none.
    fn is_due(opening: &Opening, name: Option<&[u8]>) -> bool {
        opening.due().map(|due| due.as_bytes()) == name
    }

    // Whether the group whose text has this number has the name, or there is none.
    fn is_group(opening: &Opening, text: usize, name: Option<&[u8]>) -> bool {
        opening.group(text).map(|group| group.as_bytes()) == name
    }

    #[test]
    fn a_lacking_group_is_told_at_meeting_or_when_it_is_due(rt: HostRuntime) {
        let mut rows = [Group::spare(); TABLE_ROWS];
        let mut book = TableBook::new(&mut rows);
        assert!(rt; book.add(b"g", b"(").is_ok());
        // Through a book, when it is met.
        assert!(rt; refuses(&book, b"{g}{h}", 11, 3, 0, 3));
        assert!(rt;
            begin(b"{g}{h}", &InBook::of(&book)).is_err_and(|fault| is_fault(fault, 11, 3, 0, 3))
        );
        // Where it is supposed to be there, when its turn comes.
        let begun = begin(b"{g}{h}", &Supposed);
        assert!(rt; begun.is_ok());
        if let Ok(mut opening) = begun {
            assert!(rt; is_due(&opening, Some(b"g")));
            assert!(rt;
                opening
                    .finish()
                    .is_err_and(|fault| is_fault(fault, 11, 3, 0, 0))
            );
            assert!(rt;
                opening
                    .give(b"(", &Supposed)
                    .is_err_and(|fault| is_fault(fault, 6, 2, 1, 1))
            );
            // A refusal leaves all as it was.
            assert!(rt; is_due(&opening, Some(b"g")));
            assert!(rt; is_group(&opening, 0, None));
            assert!(rt; is_group(&opening, 1, Some(b"g")));
            assert!(rt; is_group(&opening, 2, Some(b"h")));
            assert!(rt; is_group(&opening, 3, None));
            assert!(rt; opening.give(b"a", &Supposed).is_ok());
            assert!(rt; is_due(&opening, Some(b"h")));
            assert!(rt;
                opening
                    .finish()
                    .is_err_and(|fault| is_fault(fault, 11, 3, 0, 3))
            );
            assert!(rt; opening.give(b"b", &Supposed).is_ok());
            assert!(rt; is_due(&opening, None));
            // Where no text is due, none is taken.
            assert!(rt; opening.give(b"{i}", &Supposed).is_ok());
            assert!(rt; is_due(&opening, None));
            assert!(rt;
                opening.finish().is_ok_and(|opened| opened.names().len() == 2
                    && opened.texts().len() == 2)
            );
        }
    }

    #[test]
    fn a_text_that_is_refused_makes_no_group_known(rt: HostRuntime) {
        let mut rows = [Group::spare(); TABLE_ROWS];
        let mut book = TableBook::new(&mut rows);
        assert!(rt; book.add(b"g", b"").is_ok());
        assert!(rt; book.add(b"i", b"").is_ok());
        let begun = begin(b"a {g}", &InBook::of(&book));
        assert!(rt; begun.is_ok());
        if let Ok(mut opening) = begun {
            assert!(rt;
                opening
                    .give(b"{i}{h}", &InBook::of(&book))
                    .is_err_and(|fault| is_fault(fault, 11, 3, 1, 3))
            );
            assert!(rt; is_group(&opening, 2, None));
            assert!(rt;
                opening
                    .give(&[b' '; 513], &InBook::of(&book))
                    .is_err_and(|fault| is_fault(fault, 10, 2, 1, 512))
            );
            // Lacking in a text: told there, and at its first reference.
            assert!(rt; opening.give(b"a{h}|{h}", &Supposed).is_ok());
            assert!(rt; is_group(&opening, 2, Some(b"h")));
            assert!(rt;
                opening
                    .finish()
                    .is_err_and(|fault| is_fault(fault, 11, 3, 1, 1))
            );
        }
    }

    #[test]
    fn thirty_three_groups_before_any_text(rt: HostRuntime) {
        assert!(rt;
            begin(&references::<165>(), &Supposed).is_err_and(|fault| is_fault(
                fault, 12, 3, 0, 160
            ))
        );
        let begun = begin(&references::<160>(), &Supposed);
        assert!(rt; begun.is_ok());
        if let Ok(mut opening) = begun {
            assert!(rt;
                opening
                    .give(b"{g31}{more}", &Supposed)
                    .is_err_and(|fault| is_fault(fault, 12, 3, 1, 5))
            );
            for _ in 0..31 {
                assert!(rt; opening.give(b"{g31}", &Supposed).is_ok());
            }
            assert!(rt; is_due(&opening, Some(b"g31")));
            assert!(rt; opening.give(b"a", &Supposed).is_ok());
            assert!(rt;
                opening
                    .finish()
                    .is_ok_and(|opened| opened.texts().len() == 32)
            );
        }
    }

    #[test]
    fn circles_step_by_step(rt: HostRuntime) {
        let one = begin(b"{g}", &Supposed);
        assert!(rt; one.is_ok());
        if let Ok(mut opening) = one {
            let other = opening;
            assert!(rt; opening.give(b"a {g}", &Supposed).is_ok());
            assert!(rt; is_due(&opening, None));
            assert!(rt;
                opening
                    .finish()
                    .is_err_and(|fault| is_fault(fault, 13, 3, 1, 2))
            );
            let mut opening = other;
            assert!(rt; opening.give(b"{h}", &Supposed).is_ok());
            assert!(rt; opening.give(b"a|{g}", &Supposed).is_ok());
            assert!(rt;
                opening
                    .finish()
                    .is_err_and(|fault| is_fault(fault, 13, 3, 1, 0))
            );
        }
    }
}
