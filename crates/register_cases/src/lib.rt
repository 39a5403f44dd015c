//! Registers in use, with tests: gates by number and programs by name.
#![tactic(auto)]

pub mod gate;
pub mod program;

#[cfg(test)]
mod tests {
    use super::gate::Gate;
    use super::program::Program;
    use registers::key::Key;
    use registers::register::Register;
    use texts::Text;

    // What the rows hold at first.
    const SHUT: Gate = Gate {
        number: 0,
        height: 0,
    };

    // Whether the gates are these numbers, from the first row on.
    fn are(gates: &Register<'_, Gate>, numbers: &[u32]) -> bool {
        let rows = gates.in_use().iter().map(|gate| &gate.number);
        rows.eq(numbers)
    }

    // Whether the gate with the number is open so far.
    fn is_open(gates: &Register<'_, Gate>, number: u32, height: u8) -> bool {
        gates.find(&number) == Some(&Gate { number, height })
    }

    // Puts a gate, and says whether there was room.
    fn put(gates: &mut Register<'_, Gate>, number: u32, height: u8) -> bool {
        gates.put(Gate { number, height }).is_ok()
    }

    #[test]
    fn gates_in_any_order(rt: HostRuntime) {
        let mut rows = [SHUT; 4];
        let mut gates = Register::new(&mut rows);
        assert!(rt; are(&gates, &[]));
        assert!(rt; put(&mut gates, 7, 1));
        assert!(rt; put(&mut gates, 300, 2));
        assert!(rt; put(&mut gates, 2, 3));
        assert!(rt; put(&mut gates, 8, 4));
        assert!(rt; are(&gates, &[2, 7, 8, 300]));
        assert!(rt; is_open(&gates, 7, 1));
        assert!(rt; is_open(&gates, 300, 2));
        assert!(rt; is_open(&gates, 2, 3));
        assert!(rt; is_open(&gates, 8, 4));
        assert!(rt; gates.find(&3).is_none());
        assert!(rt; gates.find(&301).is_none());
        assert!(rt; gates.find(&0).is_none());
    }

    #[test]
    fn same_number_is_replaced(rt: HostRuntime) {
        let mut rows = [SHUT; 2];
        let mut gates = Register::new(&mut rows);
        assert!(rt; put(&mut gates, 7, 1));
        assert!(rt; put(&mut gates, 5, 2));
        assert!(rt; put(&mut gates, 7, 9));
        assert!(rt; are(&gates, &[5, 7]));
        assert!(rt; is_open(&gates, 7, 9));
        assert!(rt; is_open(&gates, 5, 2));
    }

    #[test]
    fn full_refuses_a_new_number_only(rt: HostRuntime) {
        let mut rows = [SHUT; 2];
        let mut gates = Register::new(&mut rows);
        assert!(rt; put(&mut gates, 7, 1));
        assert!(rt; put(&mut gates, 5, 2));
        assert!(rt; !put(&mut gates, 6, 3));
        assert!(rt; !put(&mut gates, 9, 3));
        assert!(rt; are(&gates, &[5, 7]));
        assert!(rt; put(&mut gates, 5, 4));
        assert!(rt; is_open(&gates, 5, 4));
        assert!(rt; is_open(&gates, 7, 1));
    }

    #[test]
    fn freed_row_is_used_again(rt: HostRuntime) {
        let mut rows = [SHUT; 3];
        let mut gates = Register::new(&mut rows);
        assert!(rt; put(&mut gates, 1, 1));
        assert!(rt; put(&mut gates, 2, 2));
        assert!(rt; put(&mut gates, 3, 3));
        let removed = Gate {
            number: 2,
            height: 2,
        };
        assert_eq!(rt; gates.remove(&2), Some(removed));
        assert!(rt; are(&gates, &[1, 3]));
        assert!(rt; gates.remove(&2).is_none());
        assert!(rt; are(&gates, &[1, 3]));
        assert!(rt; put(&mut gates, 0, 8));
        assert!(rt; are(&gates, &[0, 1, 3]));
        assert!(rt; gates.remove(&3).is_some());
        assert!(rt; gates.remove(&0).is_some());
        assert!(rt; gates.remove(&1).is_some());
        assert!(rt; gates.remove(&1).is_none());
        assert!(rt; are(&gates, &[]));
    }

    // Rows past those in use are the lender's: no call writes there.
    #[test]
    fn rows_past_those_in_use(rt: HostRuntime) {
        let gate = |number, height| Gate { number, height };
        let mut rows = [gate(9, 0), gate(9, 1), gate(9, 2), gate(9, 3), gate(9, 4)];
        let mut gates = Register::new(&mut rows);
        assert!(rt; put(&mut gates, 7, 1));
        assert!(rt; put(&mut gates, 5, 2));
        assert!(rt; put(&mut gates, 6, 3));
        assert!(rt; gates.remove(&5).is_some());
        assert!(rt; gates.remove(&5).is_none());
        assert!(rt; are(&gates, &[6, 7]));
        assert!(rt; rows[3] == gate(9, 3));
        assert!(rt; rows[4] == gate(9, 4));
        // The row that was freed keeps what it had.
        assert!(rt; rows[2] == gate(7, 1));
    }

    #[test]
    fn no_rows_at_all(rt: HostRuntime) {
        let mut rows: [Gate; 0] = [];
        let mut gates = Register::new(&mut rows);
        assert!(rt; !put(&mut gates, 1, 1));
        assert!(rt; gates.remove(&1).is_none());
        assert!(rt; are(&gates, &[]));
    }

    // The name of these bytes. All names in these tests are short enough.
    fn name(bytes: &[u8]) -> Text<8> {
        Text::copy_of(bytes).unwrap_or(empty())
    }

    fn empty() -> Text<8> {
        Text::copy_of(b"").unwrap()
    }

    // A program of that name.
    fn program(bytes: &[u8], starts: u32) -> Program {
        Program {
            name: name(bytes),
            starts,
        }
    }

    // How often the program was started, or 0 where there is none of that name.
    fn starts(programs: &Register<'_, Program>, bytes: &[u8]) -> u32 {
        programs
            .find(&name(bytes))
            .map_or(0, |program| program.starts)
    }

    // Puts a program, and says whether there was room.
    fn start(programs: &mut Register<'_, Program>, bytes: &[u8], starts: u32) -> bool {
        programs.put(program(bytes, starts)).is_ok()
    }

    // Takes a program out, and says whether it was there.
    fn stop(programs: &mut Register<'_, Program>, bytes: &[u8]) -> bool {
        programs.remove(&name(bytes)).is_some()
    }

    #[test]
    fn programs_by_name(rt: HostRuntime) {
        let mut rows = [program(b"", 0); 4];
        let mut programs = Register::new(&mut rows);
        assert!(rt; start(&mut programs, b"pump", 1));
        assert!(rt; start(&mut programs, b"panel", 2));
        assert!(rt; start(&mut programs, b"pum", 3));
        assert!(rt; start(&mut programs, b"", 4));
        assert!(rt; !start(&mut programs, b"gate", 5));
        assert!(rt; start(&mut programs, b"pum", 6));
        assert!(rt; starts(&programs, b"pump") == 1);
        assert!(rt; starts(&programs, b"panel") == 2);
        assert!(rt; starts(&programs, b"pum") == 6);
        assert!(rt; starts(&programs, b"") == 4);
        assert!(rt; starts(&programs, b"gate") == 0);
        assert!(rt; stop(&mut programs, b"panel"));
        assert!(rt; !stop(&mut programs, b"panel"));
        assert!(rt; starts(&programs, b"panel") == 0);
        assert!(rt; start(&mut programs, b"gate", 7));
        assert!(rt; starts(&programs, b"gate") == 7);
        assert!(rt; starts(&programs, b"pump") == 1);
    }

    // A zero byte more at the end is another text.
    #[test]
    fn texts_by_their_bytes(rt: HostRuntime) {
        assert!(rt; name(b"a") == name(b"a"));
        assert!(rt; name(b"a") != name(&[b'a', 0]));
        assert!(rt; name(&[0]) != empty());
    }

    // Whether the first name comes before the second, and the second not before the first.
    fn rise(a: &[u8], b: &[u8]) -> bool {
        let (a, b) = (name(a), name(b));
        a.is_before(&b) && !b.is_before(&a)
    }

    #[test]
    fn names_as_in_a_dictionary(rt: HostRuntime) {
        assert!(rt; rise(b"", b"a"));
        assert!(rt; rise(b"a", b"ab"));
        assert!(rt; rise(b"ab", b"b"));
        assert!(rt; rise(b"B", b"a"));
        assert!(rt; rise(b"a", &[255]));
        assert!(rt; rise(&[0], &[0, 0]));
        assert!(rt; !empty().is_before(&empty()));
        assert!(rt; 1u32.is_before(&2));
        assert!(rt; !2u32.is_before(&2));
        assert!(rt; !300u32.is_before(&7));
    }
}
