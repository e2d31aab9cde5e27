// Examples, as tests: control periods, damaged blocks and what reading says of them, starts and round trips, scans and entries.
#![tactic(auto)]

// How a call is refused.
#[cfg(test)]
mod refusals {
    use std::process::Abort;
    use terms::refusal::Refusal;

    // Asserts that a call was refused by this number, at this place and at level 0.
    pub(crate) fn refused<T: Drop>(
        rt: &impl Abort,
        answer: Result<T, Refusal>,
        number: u16,
        place: u16,
    ) {
        let refusal = answer.err().expect(rt, "a refusal");
        let cause = refusal.cause;
        assert_eq!(rt;
            (cause.number(), cause.place(), refusal.level),
            (number, place, 0)
        );
    }
}

// Damaged blocks, each with the refusal that comes first.
#[cfg(test)]
mod damaged {
    use crate::refusals::refused;
    use block::key::ModeKey;
    use block::words::fill_words;
    use loops::reading::Block;
    use pid::kind::Pid;
    use pid_fields::checks::periods;
    use pid_fields::fields::Settings;
    use standard::{standard_settings, standard_words};
    use terms::refusal::Refusal;

    // High halves of reals whose low half is 0.
    const NAN: u16 = 0x7fc0;

    const INFINITY: u16 = 0x7f80;

    const MINUS_ONE: u16 = 0xbf80;

    const TWO_HUNDRED: u16 = 0x4348;

    // 2097152
    const TWO_MILLION: u16 = 0x4a00;

    // 32768
    const LONG: u16 = 0x4700;

    // Blocks that are damaged twice: two words of each, and the number and place of the refusal that comes first.
    const DAMAGES: [([(u16, u16); 2], u16, u16); 16] = [
        ([(13, NAN), (15, INFINITY)], 2, 12),
        ([(15, INFINITY), (1, 0)], 2, 14),
        ([(111, NAN), (1, 0)], 2, 110),
        ([(63, INFINITY), (13, TWO_HUNDRED)], 2, 62),
        ([(1, 0), (13, TWO_HUNDRED)], 4, 1),
        ([(1, 0x18), (19, TWO_HUNDRED)], 4, 1),
        ([(13, TWO_HUNDRED), (19, TWO_HUNDRED)], 3, 12),
        ([(23, TWO_MILLION), (47, MINUS_ONE)], 3, 22),
        ([(49, TWO_HUNDRED), (53, MINUS_ONE)], 3, 48),
        ([(61, MINUS_ONE), (15, TWO_HUNDRED)], 3, 60),
        ([(19, MINUS_ONE), (23, 0)], 6, 20),
        ([(23, 0), (47, LONG)], 6, 24),
        ([(47, LONG), (15, TWO_HUNDRED)], 6, 46),
        ([(15, TWO_HUNDRED), (97, 1)], 3, 14),
        ([(97, 1), (96, 1)], 3, 97),
        ([(59, TWO_HUNDRED), (97, 1)], 3, 58),
    ];

    // Reads a PID block.
    fn read(words: &[u16], settings: Settings) -> Result<Block<Pid>, Refusal> {
        Block::read(words, settings)
    }

    #[test]
    fn first_refusal_of_damaged_words(rt: HostRuntime) {
        for (damage, number, place) in &DAMAGES {
            let mut words = standard_words();
            fill_words(&mut words, damage);
            refused(&rt, read(&words, standard_settings()), *number, *place);
        }
    }

    // The standard settings with these ΔT, MD and PN.
    fn settings(dt: f32, md: f32, pn: u16) -> Settings {
        Settings {
            dt,
            md,
            pn,
            ..standard_settings()
        }
    }

    #[test]
    fn first_refusal_of_settings(rt: HostRuntime) {
        let words = standard_words();
        let bad_key = Settings {
            key: ModeKey {
                man: 3,
                aut: 3,
                cas: 5,
            },
            dt: f32::NAN,
            ..standard_settings()
        };
        refused(&rt, read(&words[0..127], bad_key), 1, 0);
        refused(&rt, read(&words, bad_key), 3, 128);
        refused(&rt, read(&words, settings(f32::NAN, -1.0, 0)), 2, 129);
        refused(&rt, read(&words, settings(0.0, f32::NAN, 0)), 3, 129);
        refused(&rt, read(&words, settings(-0.0, 8.0, 0)), 3, 129);
        refused(&rt, read(&words, settings(1.0, f32::INFINITY, 2)), 2, 130);
        refused(&rt, read(&words, settings(1.0, -1.0, 2)), 3, 130);
        refused(&rt, read(&words, settings(1.0, 8.0, 2)), 3, 145);
    }

    #[test]
    fn control_period(rt: HostRuntime) {
        assert_eq!(rt; periods(0.0, 1.0), 1);
        assert_eq!(rt; periods(2.5, 1.0), 2);
        assert_eq!(rt; periods(32767.0, 1.0), 32767);
        let mut words = standard_words();
        // CT 32767
        fill_words(&mut words, &[(46, 0xfe00), (47, 0x46ff)]);
        assert!(rt; read(&words, standard_settings()).is_ok());
        // CT 32768
        fill_words(&mut words, &[(46, 0), (47, LONG)]);
        refused(&rt, read(&words, standard_settings()), 6, 46);
    }

    #[test]
    fn offset_16_is_not_looked_at(rt: HostRuntime) {
        let mut words = standard_words();
        fill_words(&mut words, &[(16, 1), (17, NAN)]);
        assert!(rt; read(&words, standard_settings()).is_ok());
    }
}

// Starts and round trips of single blocks.
#[cfg(test)]
mod starts {
    use block::words::fill_words;
    use hand::kind::Hand;
    use loops::reading::Block;
    use loops::writing::write_back;
    use pid::kind::Pid;
    use standard::{standard_settings, standard_words};
    use std::test::Fail;

    // The standard block with past values: counter 0, B 1, measured values 1, last deviation 2.5, and the named words of INH as found.
    fn used_words() -> [u16; 128] {
        let mut words = standard_words();
        fill_words(
            &mut words,
            &[
                (4, 0x8001),
                (63, 0x3f80),
                (103, 0x3f80),
                (105, 0x3f80),
                (107, 0x3f80),
                (109, 0x3f80),
                (111, 0x4020),
            ],
        );
        words
    }

    #[test]
    fn cold_start_zeroes_the_past(rt: HostRuntime) -> Result<(), Fail> {
        let mut words = used_words();
        let pid = Block::<Pid>::read(&words, standard_settings())?.cold_start();
        pid.write(&mut words)?;
        let mut expected = standard_words();
        // MVP stays, and INH gains TRKF
        fill_words(&mut expected, &[(4, 0xa001), (63, 0x3f80)]);
        assert_eq!(rt; words, expected);
        Ok(())
    }

    #[test]
    fn warm_start_keeps_the_block(rt: HostRuntime) -> Result<(), Fail> {
        let mut words = used_words();
        // a subnormal MVP and an MV of -0 keep their bits
        fill_words(&mut words, &[(13, 0x8000), (62, 1), (63, 0)]);
        let mut expected = words;
        fill_words(&mut expected, &[(16, 0), (17, 0x4020)]);
        write_back::<Pid>(&mut words, standard_settings())?;
        assert_eq!(rt; words, expected);
        Ok(())
    }

    #[test]
    fn hand_station(rt: HostRuntime) -> Result<(), Fail> {
        let key = standard_settings().key;
        let mut words = used_words();
        // MV 110, and a damaged SV that a hand station does not look at
        fill_words(&mut words, &[(13, 0x42dc), (15, 0x7fc0)]);
        let expected = words;
        write_back::<Hand>(&mut words, key)?;
        assert_eq!(rt; words, expected);
        let station = Block::<Hand>::read(&words, key)?.warm_start();
        assert_eq!(rt; station.percent(), 100.0);
        assert_eq!(rt; station.settings(), key);
        Ok(())
    }

    #[test]
    fn wrong_length(rt: HostRuntime) -> Result<(), Fail> {
        let pid = Block::<Pid>::read(&standard_words(), standard_settings())?.cold_start();
        let mut short = [7u16; 127];
        assert!(rt; pid.write(&mut short).is_err());
        assert_eq!(rt; short, [7u16; 127]);
        Ok(())
    }
}

// Scans and entries of a PID loop, each refusal among them.
#[cfg(test)]
mod operating {
    use crate::refusals::refused;
    use block::words::fill_words;
    use loops::reading::Block;
    use loops::running::Loop;
    use pid::kind::Pid;
    use standard::{standard_settings, standard_words};
    use std::test::Fail;
    use terms::entry::{Entry, Limits};
    use terms::mode::Mode;
    use terms::refusal::Refusal;

    // The standard block with some words changed, started warm.
    fn started(changes: &[(u16, u16)]) -> Result<Loop<Pid>, Refusal> {
        let mut words = standard_words();
        fill_words(&mut words, changes);
        Ok(Block::read(&words, standard_settings())?.warm_start())
    }

    // Runs, in AUT, without TRKF.
    const RUNNING: [(u16, u16); 3] = [(1, 0x10), (3, 0), (4, 0)];

    fn limits(mh: f32, ml: f32, dml: f32) -> Entry {
        Entry::Limits(Limits { mh, ml, dml })
    }

    // Entries in MAN, each with the number and place by which it is refused.
    fn bad_entries() -> [(Entry, u16, u16); 11] {
        [
            (Entry::Setpoint(f32::NAN), 2, 14),
            (Entry::Setpoint(101.0), 3, 14),
            (Entry::Output(f32::INFINITY), 2, 12),
            (Entry::Output(110.5), 3, 12),
            (limits(f32::NAN, f32::NAN, f32::NAN), 2, 18),
            (limits(111.0, f32::NAN, f32::NAN), 2, 20),
            (limits(111.0, -11.0, f32::NAN), 2, 48),
            (limits(111.0, -11.0, 101.0), 3, 18),
            (limits(0.0, -11.0, 101.0), 3, 20),
            (limits(0.0, 1.0, 101.0), 3, 48),
            (limits(0.0, 1.0, 0.0), 6, 20),
        ]
    }

    #[test]
    fn entries_that_are_refused(rt: HostRuntime) -> Result<(), Fail> {
        let mut pid = started(&[])?;
        for (entry, number, place) in bad_entries() {
            refused(&rt, pid.enter(entry), number, place);
        }
        pid.enter(Entry::Mode(Mode::Aut))?;
        refused(&rt, pid.enter(Entry::Output(f32::NAN)), 7, 12);
        pid.enter(Entry::Mode(Mode::Cas))?;
        refused(&rt, pid.enter(Entry::Setpoint(f32::NAN)), 7, 14);
        assert_eq!(rt; pid.tell().mh, 100.0);
        Ok(())
    }

    #[test]
    fn inputs_that_are_refused(rt: HostRuntime) -> Result<(), Fail> {
        let mut pid = started(&[])?;
        refused(&rt, pid.scan(f32::NAN, Some(f32::NAN)), 2, 131);
        refused(&rt, pid.scan(f32::NAN, Some(110.5)), 3, 131);
        refused(&rt, pid.scan(f32::NAN, Some(110.0)), 2, 104);
        refused(&rt, pid.scan(-10.5, None), 3, 104);
        refused(&rt, pid.follow(f32::NAN), 2, 12);
        refused(&rt, pid.follow(-10.5), 3, 12);
        Ok(())
    }

    // A last deviation of about -1.7E38 and P 999999: the change is infinite, in MAN too.
    const FAR: [(u16, u16); 3] = [(52, 0x23f0), (53, 0x4974), (111, 0xff00)];

    #[test]
    fn no_finite_result_of_control(rt: HostRuntime) -> Result<(), Fail> {
        let mut pid = started(&FAR)?;
        // stopped, the loop skips the step
        pid.scan(50.0, None)?;
        pid.enter(Entry::Run)?;
        refused(&rt, pid.scan(50.0, None), 9, 3);
        refused(&rt, pid.trial(50.0, None), 9, 3);
        Ok(())
    }

    #[test]
    fn no_finite_result_of_output(rt: HostRuntime) -> Result<(), Fail> {
        // CT 2 and TI the smallest real: outside a control period only the anti-windup divides by TI
        let mut words = standard_words();
        fill_words(&mut words, &RUNNING);
        fill_words(&mut words, &[(47, 0x4000), (54, 1), (55, 0), (63, 0x4348)]);
        let mut pid = Block::<Pid>::read(&words, standard_settings())?.warm_start();
        refused(&rt, pid.scan(50.0, None), 9, 4);
        Ok(())
    }

    #[test]
    fn control_comes_every_third_scan(rt: HostRuntime) -> Result<(), Fail> {
        let mut words = standard_words();
        fill_words(&mut words, &RUNNING);
        // CT 3
        fill_words(&mut words, &[(47, 0x4040)]);
        let mut pid = Block::<Pid>::read(&words, standard_settings())?.warm_start();
        pid.enter(Entry::Setpoint(60.0))?;
        assert_eq!(rt; pid.scan(50.0, None)?.0, 0.0);
        assert_eq!(rt; pid.scan(50.0, None)?.0, 0.0);
        // DV 10, J 3
        assert_eq!(rt; pid.trial(50.0, None)?.0, 13.0);
        assert_eq!(rt; pid.scan(50.0, None)?.0, 13.0);
        assert_eq!(rt; pid.scan(50.0, None)?.0, 13.0);
        assert_eq!(rt; pid.scan(50.0, None)?.0, 13.0);
        assert_eq!(rt; pid.scan(50.0, None)?.0, 16.0);
        Ok(())
    }

    #[test]
    fn follow_and_return(rt: HostRuntime) -> Result<(), Fail> {
        let mut pid = started(&RUNNING)?;
        pid.enter(limits(60.0, 0.0, 5.0))?;
        pid.follow(70.0)?;
        assert_eq!(rt; pid.tell().mv, 70.0);
        assert!(rt; pid.tell().tracking);
        // begins from MV, brought into ML..MH: MHA
        assert_eq!(rt; pid.scan(50.0, None)?, (60.0, 0x0002));
        assert!(rt; !pid.tell().tracking);
        Ok(())
    }

    #[test]
    fn cascade_without_and_with_a_remote_value(rt: HostRuntime) -> Result<(), Fail> {
        let mut pid = started(&RUNNING)?;
        pid.enter(Entry::Setpoint(20.0))?;
        pid.enter(Entry::Mode(Mode::Cas))?;
        pid.scan(20.0, None)?;
        assert_eq!(rt; pid.tell().e2, 20.0);
        pid.scan(20.0, Some(110.0))?;
        assert_eq!(rt; pid.tell().e2, 110.0);
        assert_eq!(rt; pid.tell().s, 100.0);
        Ok(())
    }
}
