//! A station with its rows taken and freed in every order, and its names, paths and lists at their limits, as tests.
#![tactic(auto)]

#[cfg(test)]
mod tests {
    use faults::fault::Fault;
    use faults::lawful::LawfulText;
    use station::number::ProcessNumber;
    use station::place::Place;
    use station::process::Process;
    use station::station::Station;

    // The four numbers of a refusal: its number, its layer, its text and its place.
    // Each crate of tests says by itself what it expects of a fault.
    type Refusal = (u8, u8, usize, usize);

    const NO_PROCESS: Refusal = (14, 4, 0, 0);

    const NO_LIST: Refusal = (15, 4, 0, 0);

    const NO_ROW: Refusal = (17, 4, 0, 0);

    fn refusal(fault: Fault) -> Refusal {
        (
            fault.kind.number(),
            fault.kind.layer(),
            fault.text,
            fault.place,
        )
    }

    // What a call that gives a number answers.
    fn given(answer: Result<ProcessNumber, Fault>) -> Result<u32, Refusal> {
        answer.map(|process| process.0).map_err(refusal)
    }

    fn start(station: &mut Station<'_>, program: &[u8]) -> Result<u32, Refusal> {
        given(station.start(program))
    }

    fn spawn(station: &mut Station<'_>, parent: u32, program: &[u8]) -> Result<u32, Refusal> {
        given(station.spawn(ProcessNumber(parent), program))
    }

    fn spawn_in_role(
        station: &mut Station<'_>,
        parent: u32,
        role: &[u8],
        program: &[u8],
    ) -> Result<u32, Refusal> {
        given(station.spawn_in_role(ProcessNumber(parent), role, program))
    }

    fn spawn_itself(
        station: &mut Station<'_>,
        parent: u32,
        program: &[u8],
    ) -> Result<u32, Refusal> {
        given(station.spawn_itself(ProcessNumber(parent), program))
    }

    fn end(station: &mut Station<'_>, process: u32) -> Result<(), Refusal> {
        station.end(ProcessNumber(process)).map_err(refusal)
    }

    fn post(
        station: &mut Station<'_>,
        path: &[u8],
        own: &[u8],
        second: Option<&[u8]>,
    ) -> Result<(), Refusal> {
        station.post(path, own, second).map_err(refusal)
    }

    fn unpost(station: &mut Station<'_>, path: &[u8]) -> Result<(), Refusal> {
        station.unpost(path).map_err(refusal)
    }

    // Why no list is in force for the path, if none is.
    fn lacking(station: &Station<'_>, path: &[u8]) -> Option<Refusal> {
        station.list_in_force(path).err().map(refusal)
    }

    // Whether the process has the name.
    fn is_named(station: &Station<'_>, number: u32, name: &[u8]) -> bool {
        station
            .name(ProcessNumber(number))
            .is_some_and(|held| held.as_bytes() == name)
    }

    // Whether the list is in force for the path.
    fn is_in_force(station: &Station<'_>, path: &[u8], list: &[u8]) -> bool {
        station
            .list_in_force(path)
            .is_ok_and(|held| held.as_bytes() == list)
    }

    #[test]
    fn names_say_who_started_whom(rt: HostRuntime) {
        let mut processes = [Process::spare(); 64];
        let mut places = [Place::spare(); 32];
        let mut station = Station::new(&mut processes, &mut places);
        assert!(rt; start(&mut station, b"lock.panel") == Ok(1));
        assert!(rt; spawn(&mut station, 1, b"gate") == Ok(2));
        assert!(rt; spawn_in_role(&mut station, 1, b"keeper", b"gate") == Ok(3));
        assert!(rt; spawn_in_role(&mut station, 3, b"a.b", b"c") == Ok(4));
        assert!(rt; spawn_itself(&mut station, 1, b"pump") == Ok(5));
        assert!(rt; is_named(&station, 1, b"lock.panel"));
        assert!(rt; is_named(&station, 2, b"lock.panel+gate"));
        assert!(rt; is_named(&station, 3, b"lock.panel@keeper+gate"));
        assert!(rt; is_named(&station, 4, b"lock.panel@keeper+gate@a.b+c"));
        assert!(rt; is_named(&station, 5, b"pump"));
        assert!(rt; end(&mut station, 1).is_ok());
        assert!(rt; station.name(ProcessNumber(1)).is_none());
        assert!(rt; is_named(&station, 3, b"lock.panel@keeper+gate"));
    }

    #[test]
    fn numbers_of_no_process(rt: HostRuntime) {
        let mut processes = [Process::spare(); 64];
        let mut places = [Place::spare(); 32];
        let mut station = Station::new(&mut processes, &mut places);
        assert!(rt; start(&mut station, b"panel") == Ok(1));
        assert!(rt; end(&mut station, 1).is_ok());
        for process in [0, 1, 2, 65, u32::MAX] {
            assert!(rt; station.name(ProcessNumber(process)).is_none());
            assert!(rt; end(&mut station, process) == Err(NO_PROCESS));
            assert!(rt; spawn(&mut station, process, b"") == Err(NO_PROCESS));
            assert!(rt; spawn_in_role(&mut station, process, b"", b"") == Err(NO_PROCESS));
            assert!(rt; spawn_itself(&mut station, process, b"") == Err(NO_PROCESS));
        }
        assert!(rt; start(&mut station, b"panel") == Ok(2));
    }

    #[test]
    fn checks_in_order(rt: HostRuntime) {
        let mut processes = [Process::spare(); 64];
        let mut places = [Place::spare(); 32];
        let mut station = Station::new(&mut processes, &mut places);
        assert!(rt; start(&mut station, b"a b") == Err((1, 1, 0, 1)));
        assert!(rt; start(&mut station, b"a+b") == Err((1, 1, 0, 1)));
        assert!(rt; start(&mut station, b"a") == Ok(1));
        assert!(rt; spawn(&mut station, 1, b"a.") == Err((2, 1, 0, 2)));
        assert!(rt; spawn_itself(&mut station, 1, &[b'a'; 33]) == Err((3, 1, 0, 32)));
        assert!(rt; spawn_in_role(&mut station, 1, b"", b"a@b") == Err((1, 1, 0, 1)));
        assert!(rt; spawn_in_role(&mut station, 1, b"", b"b") == Err((2, 1, 1, 0)));
        assert!(rt; spawn_in_role(&mut station, 1, &[b'!'; 65], b"b") == Err((4, 1, 1, 64)));
        for number in 2..65 {
            assert!(rt; spawn(&mut station, 1, b"b") == Ok(number));
        }
        assert!(rt; spawn_in_role(&mut station, 1, b"!", b"b") == Err((1, 1, 1, 0)));
        assert!(rt; spawn_in_role(&mut station, 1, b"r", b"b") == Err(NO_ROW));
        assert!(rt; spawn_itself(&mut station, 1, b"b") == Err(NO_ROW));
        assert!(rt; spawn(&mut station, 1, b"b") == Err(NO_ROW));
        assert!(rt; start(&mut station, b"b") == Err(NO_ROW));
        assert!(rt; end(&mut station, 40).is_ok());
        assert!(rt; start(&mut station, b"b") == Ok(65));
    }

    #[test]
    fn rows_are_used_again(rt: HostRuntime) {
        let mut processes = [Process::spare(); 64];
        let mut places = [Place::spare(); 32];
        let mut station = Station::new(&mut processes, &mut places);
        // Ends go up, down, and by steps over the rows.
        for (round, step) in [(0u32, 1u32), (1, 63), (2, 5), (3, 27)] {
            for i in 1..65u32 {
                assert!(rt; start(&mut station, b"a") == Ok(64 * round + i));
            }
            assert!(rt; start(&mut station, b"a") == Err(NO_ROW));
            for i in 0..64u32 {
                assert!(rt; end(&mut station, 64 * round + 1 + (step * i) % 64).is_ok());
            }
        }
    }

    #[test]
    fn names_at_their_limits(rt: HostRuntime) {
        let mut processes = [Process::spare(); 64];
        let mut places = [Place::spare(); 32];
        let mut station = Station::new(&mut processes, &mut places);
        // Two words of 32 and 31 bytes, and words of one byte.
        let long = b"wwwwwwwwwwwwwwwwwwwwwwwwwwwwwwww.wwwwwwwwwwwwwwwwwwwwwwwwwwwwwww";
        let parts = b"a.a.a.a.a.a.a.a.a.a.a.a.a.a.a.a.a.a.a.a.a.a.a.a.a.a.a.a.a.a.a.a";
        assert!(rt; start(&mut station, long) == Ok(1));
        assert!(rt; spawn(&mut station, 1, long) == Ok(2));
        assert!(rt; spawn(&mut station, 2, long) == Ok(3));
        assert!(rt; spawn(&mut station, 3, &long[..60]) == Ok(4));
        assert!(rt; spawn(&mut station, 3, &long[..61]) == Err((4, 1, 0, 255)));
        assert!(rt; spawn_in_role(&mut station, 3, b"r", &long[..59]) == Err((4, 1, 0, 255)));
        assert!(rt; spawn_in_role(&mut station, 3, b"r", &long[..58]) == Ok(5));
        assert!(rt; start(&mut station, parts) == Ok(6));
        assert!(rt; spawn(&mut station, 6, b"a") == Err((4, 1, 0, 63)));
        assert!(rt; start(&mut station, &parts[..61]) == Ok(7));
        assert!(rt; spawn(&mut station, 7, b"a") == Ok(8));
        assert!(rt; spawn_in_role(&mut station, 7, b"r", b"a") == Err((4, 1, 0, 63)));
        assert!(rt; spawn_itself(&mut station, 6, parts) == Ok(9));
    }

    #[test]
    fn unlawful_places(rt: HostRuntime) {
        let mut processes = [Process::spare(); 64];
        let mut places = [Place::spare(); 32];
        let mut station = Station::new(&mut processes, &mut places);
        let long = b"/wwwwwwwwwwwwwwwwwwwwwwwwwwwwwwww/wwwwwwwwwwwwwwwwwwwwwwwwwwwwww/";
        let cases: [(&[u8], usize); 6] = [
            (b"", 0),
            (b"/", 1),
            (b"//", 1),
            (b"a", 0),
            (b"/a//b", 3),
            (long, 64),
        ];
        for (path, place) in cases {
            let fault = (16, 4, 0, place);
            assert!(rt; post(&mut station, path, b"(", Some(b"(")) == Err(fault));
            assert!(rt; unpost(&mut station, path) == Err(fault));
            assert!(rt; lacking(&station, path) == Some(fault));
        }
        assert!(rt; post(&mut station, b"/a", b"(", Some(b"*")) == Err((6, 2, 0, 1)));
        assert!(rt; post(&mut station, b"/a", b"a", Some(b"*")) == Err((6, 2, 1, 0)));
        assert!(rt; post(&mut station, b"/a", b"a", Some(&[b' '; 513])) == Err((10, 2, 1, 512)));
        assert!(rt; unpost(&mut station, b"/a") == Err(NO_LIST));
        assert!(rt; lacking(&station, b"/a") == Some(NO_LIST));
        assert!(rt; post(&mut station, &long[..64], b"a", None).is_ok());
        assert!(rt; is_in_force(&station, &long[..64], b"a"));
    }

    #[test]
    fn thirty_two_places(rt: HostRuntime) {
        let mut processes = [Process::spare(); 64];
        let mut places = [Place::spare(); 32];
        let mut station = Station::new(&mut processes, &mut places);
        let words = b"abcdefghijklmnopqrstuvwxyzABCDEF";
        for word in words {
            assert!(rt; post(&mut station, &[b'/', *word], b"a", Some(b"b")).is_ok());
        }
        assert!(rt; post(&mut station, b"/G", b"(", None) == Err((6, 2, 0, 1)));
        assert!(rt; post(&mut station, b"/G", b"a", None) == Err(NO_ROW));
        for word in words {
            assert!(rt; post(&mut station, &[b'/', *word], b"c", None).is_ok());
            assert!(rt; is_in_force(&station, &[b'/', *word, b'/', b'a'], b"c"));
        }
        assert!(rt; unpost(&mut station, b"/m").is_ok());
        assert!(rt; unpost(&mut station, b"/m") == Err(NO_LIST));
        assert!(rt; post(&mut station, b"/G", b"a", None).is_ok());
        assert!(rt; post(&mut station, b"/m", b"a", None) == Err(NO_ROW));
    }

    #[test]
    fn lists_in_force(rt: HostRuntime) {
        let mut processes = [Process::spare(); 64];
        let mut places = [Place::spare(); 32];
        let mut station = Station::new(&mut processes, &mut places);
        assert!(rt; post(&mut station, b"/g1", b"own", Some(b"second")).is_ok());
        assert!(rt; post(&mut station, b"/g1/a", b"inner", None).is_ok());
        assert!(rt; post(&mut station, b"/g2", b"own", Some(b"")).is_ok());
        assert!(rt; post(&mut station, b"/g3", b"own", Some(b"  ")).is_ok());
        assert!(rt; post(&mut station, b"/x/y/z", b"deep", None).is_ok());
        let cases: [(&[u8], &[u8]); 8] = [
            (b"/g1", b"own"),
            (b"/g1/b", b"second"),
            (b"/g1/b/c/d", b"second"),
            (b"/g1/a", b"inner"),
            (b"/g1/a/b", b"inner"),
            (b"/g1/ab", b"second"),
            (b"/g2/a", b""),
            (b"/g3/a", b"  "),
        ];
        for (path, list) in cases {
            assert!(rt; is_in_force(&station, path, list));
        }
        let unposted: [&[u8]; 5] = [b"/g12", b"/g", b"/g12/a", b"/x/y", b"/a/g1"];
        for path in unposted {
            assert!(rt; lacking(&station, path) == Some(NO_LIST));
        }
        assert!(rt; unpost(&mut station, b"/g1/a").is_ok());
        assert!(rt; is_in_force(&station, b"/g1/a", b"second"));
        assert!(rt; post(&mut station, b"/g1", b"new", None).is_ok());
        assert!(rt; is_in_force(&station, b"/g1/a", b"new"));
        assert!(rt; unpost(&mut station, b"/g1").is_ok());
        assert!(rt; lacking(&station, b"/g1/a") == Some(NO_LIST));
    }
}
