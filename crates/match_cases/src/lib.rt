//! What lists derive, and lists that would make a slower matcher run on, as tests.
#![tactic(auto)]

pub mod lax;

#[cfg(test)]
mod tests {
    use super::lax::Lax;
    use books::group::Group;
    use books::table::{TABLE_ROWS, TableBook};
    use faults::lawful::LawfulText;
    use lists::list::AccessList;
    use matching::judgement::judge;
    use names::name::Name;
    use names::rule::{ExactBytes, WordRule};
    use std::array;

    // Whether the list opens through the book and derives the name by the rule, or none where one of them is refused.
    fn verdict<R: WordRule>(
        rule: &R,
        book: &TableBook<'_>,
        name: &[u8],
        list: &[u8],
    ) -> Option<bool> {
        let name = Name::new(name).ok()?;
        let list = AccessList::new(list).ok()?;
        Some(judge(&list, &name, book, rule).ok()?.is_grant())
    }

    fn yes_by<R: WordRule>(rule: &R, book: &TableBook<'_>, name: &[u8], list: &[u8]) -> bool {
        verdict(rule, book, name, list) == Some(true)
    }

    fn no_by<R: WordRule>(rule: &R, book: &TableBook<'_>, name: &[u8], list: &[u8]) -> bool {
        verdict(rule, book, name, list) == Some(false)
    }

    fn yes(book: &TableBook<'_>, name: &[u8], list: &[u8]) -> bool {
        yes_by(&ExactBytes, book, name, list)
    }

    fn no(book: &TableBook<'_>, name: &[u8], list: &[u8]) -> bool {
        no_by(&ExactBytes, book, name, list)
    }

    // Letters with a mark at every second place, `N` bytes in all.
    fn alternating<const N: usize>(mark: u8) -> [u8; N] {
        array::from_fn(|i| if i % 2 == 1 { mark } else { b'a' })
    }

    #[test]
    fn lists_without_groups(rt: HostRuntime) {
        let mut rows = [Group::spare(); TABLE_ROWS];
        let book = TableBook::new(&mut rows);
        assert!(rt; yes(&book, b"a.b", b"!"));
        assert!(rt; no(&book, b"a@b", b"!"));
        assert!(rt; no(&book, b"a", b"b"));
        assert!(rt; yes(&book, b"b", b"a|b"));
        assert!(rt; yes(&book, b"a", b"a b*"));
        assert!(rt; yes(&book, b"a.b.x", b"!.x"));
        assert!(rt; yes(&book, b"a+b+c", b"(!+)*!"));
        assert!(rt; no(&book, b"login", b"log in"));
        assert!(rt; yes(&book, b"a", b"(a*)*"));
        assert!(rt;
            yes(
                &book,
                b"login@ted+app@read",
                b"(!@ted +!@read) | (login@ted +!@write)"
            )
        );
        assert!(rt;
            no(
                &book,
                b"sshd@ted+app@write",
                b"(!@ted +!@read) | (login@ted +!@write)"
            )
        );
        assert!(rt;
            no(
                &book,
                b"login@ted+app@beta@read",
                b"(!@ted +!@read) | (login@ted +!@write)"
            )
        );
        // A text without items derives nothing.
        assert!(rt; no(&book, b"a", b""));
        assert!(rt; no(&book, b"a", b"  "));
        // A list derives whole names, and no beginning of one.
        assert!(rt; no(&book, b"a+b", b"a"));
        assert!(rt; no(&book, b"a", b"a b"));
        // A star gives a run back where the rest needs it.
        assert!(rt; yes(&book, b"a.a.a", b"(a.)* a"));
        assert!(rt; yes(&book, b"a.a.a", b"(a|.)* . a"));
    }

    #[test]
    fn lists_with_groups(rt: HostRuntime) {
        let mut rows = [Group::spare(); TABLE_ROWS];
        let mut book = TableBook::new(&mut rows);
        assert!(rt; book.add(b"g", b"a|b").is_ok());
        assert!(rt; yes(&book, b"x.b", b"x.{g}"));
        assert!(rt; no(&book, b"b", b"x.{g}"));
        assert!(rt; no(&book, b"x.c", b"x.{g}"));
        assert!(rt; yes(&book, b"b.a", b"{g}.{g}"));
        assert!(rt; no(&book, b"b.c", b"{g}.{g}"));
        assert!(rt; book.add(b"none", b" ").is_ok());
        assert!(rt; no(&book, b"a", b"{none}"));
        assert!(rt; no(&book, b"a", b"a {none}"));
        assert!(rt; yes(&book, b"a", b"a {none}*"));
        assert!(rt; verdict(&ExactBytes, &book, b"a b", b"a").is_none());
        assert!(rt; verdict(&ExactBytes, &book, b"a", b"{h}").is_none());
    }

    #[test]
    fn words_in_any_case(rt: HostRuntime) {
        let mut rows = [Group::spare(); TABLE_ROWS];
        let mut book = TableBook::new(&mut rows);
        assert!(rt; book.add(b"g", b"Admin|b").is_ok());
        assert!(rt; yes_by(&Lax::AnyCase, &book, b"A", b"a"));
        assert!(rt; no(&book, b"A", b"a"));
        assert!(rt; yes_by(&Lax::AnyCase, &book, b"x.ADMIN", b"X.{g}"));
        assert!(rt; no(&book, b"x.ADMIN", b"X.{g}"));
        assert!(rt; yes_by(&Lax::AnyCase, &book, b"A+a+A", b"(a+)*a"));
        assert!(rt; no(&book, b"A+a+A", b"(a+)*a"));
        assert!(rt; yes_by(&Lax::AnyCase, &book, b"Ab.c", b"!"));
        // Other words stay apart.
        assert!(rt; no_by(&Lax::AnyCase, &book, b"AB", b"a"));
        assert!(rt; no_by(&Lax::AnyCase, &book, b"x.C", b"X.{g}"));
        assert!(rt; no_by(&Lax::AnyCase, &book, b"a_b", b"a-b"));
    }

    // This rule is not the same both ways round: the word of the list comes first.
    #[test]
    fn words_by_their_beginning(rt: HostRuntime) {
        let mut rows = [Group::spare(); TABLE_ROWS];
        let mut book = TableBook::new(&mut rows);
        assert!(rt; book.add(b"g", b"log|read").is_ok());
        assert!(rt; yes_by(&Lax::Beginning, &book, b"login", b"log"));
        assert!(rt; no_by(&Lax::Beginning, &book, b"log", b"login"));
        assert!(rt; yes_by(&Lax::Beginning, &book, b"x.reader", b"x.{g}"));
        assert!(rt; no_by(&Lax::Beginning, &book, b"x.rea", b"x.{g}"));
        assert!(rt; yes_by(&Lax::Beginning, &book, b"log@login", b"(log@)*log"));
        assert!(rt; no(&book, b"login", b"log"));
    }

    // The name `gNN` of a group by the last two digits of its number.
    fn numbered(k: u8) -> [u8; 3] {
        [b'g', b'0' + k / 10 % 10, b'0' + k % 10]
    }

    // The text that refers to that group twice.
    fn doubled(k: u8) -> [u8; 10] {
        let tens = b'0' + k / 10 % 10;
        let ones = b'0' + k % 10;
        [b'{', b'g', tens, ones, b'}', b'{', b'g', tens, ones, b'}']
    }

    // Of 31 groups each names the next twice, so that the first stands for 2³⁰ references to the last.
    #[test]
    fn groups_that_double(rt: HostRuntime) {
        let mut rows = [Group::spare(); TABLE_ROWS];
        let mut book = TableBook::new(&mut rows);
        for k in 0..30 {
            assert!(rt; book.add(&numbered(k), &doubled(k + 1)).is_ok());
        }
        assert!(rt; book.add(&numbered(30), b"a*").is_ok());
        assert!(rt; yes(&book, b"a", b"{g00}"));
        assert!(rt; no(&book, b"a.a", b"{g00}"));
        assert!(rt; no(&book, b"b", b"{g00}"));
        assert!(rt; yes(&book, b"a", b"{g00}a"));
        assert!(rt; book.add(&numbered(30), b"(a|+)*").is_ok());
        assert!(rt; yes(&book, &alternating::<63>(b'+'), b"{g00}"));
        assert!(rt; no(&book, &alternating::<63>(b'@'), b"{g00}"));
        assert!(rt; no(&book, &alternating::<63>(b'+'), b"{g00}b"));
    }

    // As many groups as a list may reach.
    #[test]
    fn thirty_two_groups(rt: HostRuntime) {
        let mut rows = [Group::spare(); TABLE_ROWS];
        let mut book = TableBook::new(&mut rows);
        for k in 0..31 {
            assert!(rt; book.add(&numbered(k), &doubled(k + 1)).is_ok());
        }
        assert!(rt; book.add(&numbered(31), b"a*").is_ok());
        assert!(rt; yes(&book, b"a", b"{g00}"));
        assert!(rt; no(&book, b"b", b"{g00}"));
    }

    #[test]
    fn stars_in_stars(rt: HostRuntime) {
        let mut rows = [Group::spare(); TABLE_ROWS];
        let book = TableBook::new(&mut rows);
        let longest = alternating::<63>(b'+');
        let nested = b"((((((((((((((((a|+)*)*)*)*)*)*)*)*)*)*)*)*)*)*)*)*";
        assert!(rt; yes(&book, &longest, nested));
        assert!(rt; no(&book, &alternating::<63>(b'.'), nested));
        let and_more = b"((((((((((((((((a|+)*)*)*)*)*)*)*)*)*)*)*)*)*)*)*)* b";
        assert!(rt; no(&book, &longest, and_more));
        let apart =
            b"((((((((((((((((a*+*)*(a*+*)*)*(a*+*)*)*(a*+*)*)*(a*+*)*)*)*)*)*)*)*)*)*)*)*)*)*";
        assert!(rt; yes(&book, &longest, apart));
        assert!(rt; no(&book, &alternating::<63>(b'.'), apart));
        assert!(rt; no(&book, &longest, b"(!*)*(!*)*(!*)*(!*)*(!*)*(!*)*(!*)*(!*)*"));
        assert!(rt; yes(&book, &longest, b"((!|+)*)*((!|+)*)*((!|+)*)*((!|+)*)*"));
    }

    // Words of seven letters joined by a mark, `N` bytes in all.
    fn words<const N: usize>(mark: u8) -> [u8; N] {
        array::from_fn(|i| if i % 8 == 7 { mark } else { b'a' })
    }

    // Names of the most parts, and of the most bytes too, against the longest lists of stars.
    #[test]
    fn the_longest_list(rt: HostRuntime) {
        let mut rows = [Group::spare(); TABLE_ROWS];
        let book = TableBook::new(&mut rows);
        let mut list = [b'*'; 512];
        list[0] = b'!';
        assert!(rt; yes(&book, &alternating::<63>(b'.'), &list));
        assert!(rt; no(&book, &alternating::<63>(b'+'), &list));
        assert!(rt; yes(&book, &words::<255>(b'.'), &list));
        assert!(rt; no(&book, &words::<255>(b'@'), &list));
        assert!(rt; yes(&book, &alternating::<63>(b'+'), b"(a|+)*+a!*"));
        assert!(rt; no(&book, &alternating::<63>(b'@'), b"(a|+)*+a!*"));
        let any = [b'!'; 512];
        assert!(rt; no(&book, &alternating::<63>(b'.'), &any));
        assert!(rt; yes(&book, b"a", &list));
        assert!(rt; no(&book, b"a", &any));
    }
}
