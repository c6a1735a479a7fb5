#![tactic(auto)]

// Examples of streets and choices, run as tests.
#[cfg(test)]
mod tests {
    use choices::answers::Refusal;
    use choices::choices;
    use jobs::job::{Draft, Job};
    use jobs::stops::{Link, Stop, Tie};
    use quarters::quarter::Quarter;
    use quarters::quarter::grid::QuarterRefusal;
    use std::test::Fail;
    use streets::legs::{Leg, LegRecord};
    use streets::list::ListStreet;
    use streets::street::Street;

    // What a street answers where there is a leg.
    fn leg(climb: u16, seconds: u16) -> Option<Leg> {
        Some(Leg { climb, seconds })
    }

    fn record(from: u8, to: u8, seconds: u16) -> LegRecord {
        LegRecord {
            from,
            to,
            leg: Leg { climb: 0, seconds },
        }
    }

    #[test]
    fn the_last_record_of_a_pair_holds(rt: HostRuntime) {
        let kinds = [1u8, 2, 3];
        let records = [
            record(0, 1, 5),
            record(1, 0, 6),
            record(0, 1, 7),
            record(2, 2, 8),
            record(0, 3, 9),
        ];
        let street = ListStreet::new(&kinds, &records);
        assert_eq!(rt; street.places(), 3);
        assert_eq!(rt; street.leg(0, 1), leg(0, 7));
        assert_eq!(rt; street.leg(1, 0), leg(0, 6));
        assert_eq!(rt; street.leg(2, 2), None);
        assert_eq!(rt; street.leg(0, 3), None);
        assert_eq!(rt; street.kind(2), 3);
        assert_eq!(rt; street.kind(3), 0);
    }

    #[test]
    fn only_the_first_kinds_and_records_count(rt: HostRuntime) {
        let kinds = [9u8; 65];
        let mut records = [record(0, 1, 5); 4097];
        records[4095] = record(2, 3, 6);
        records[4096] = record(0, 1, 7);
        let street = ListStreet::new(&kinds, &records);
        assert_eq!(rt; street.places(), 64);
        assert_eq!(rt; street.kind(63), 9);
        assert_eq!(rt; street.kind(64), 0);
        assert_eq!(rt; street.leg(0, 1), leg(0, 5));
        assert_eq!(rt; street.leg(2, 3), leg(0, 6));
    }

    #[test]
    fn a_quarter_is_a_grid(rt: HostRuntime) -> Result<(), Fail> {
        let street = Quarter::new(3, 2, 2, 60, 5)?;
        assert_eq!(rt; street.places(), 6);
        assert_eq!(rt; street.kind(0), 1);
        assert_eq!(rt; street.kind(1), 2);
        assert_eq!(rt; street.kind(4), 1);
        assert_eq!(rt; street.leg(1, 4), leg(5, 60));
        assert_eq!(rt; street.leg(4, 1), leg(0, 60));
        assert_eq!(rt; street.leg(0, 1), leg(0, 60));
        assert_eq!(rt; street.leg(2, 1), leg(0, 60));
        assert_eq!(rt; street.leg(2, 3), None);
        assert_eq!(rt; street.leg(0, 4), None);
        Ok(())
    }

    // Why no quarter is made of the numbers, none where one is.
    fn refused(
        width: u32,
        height: u32,
        kinds: u32,
        seconds: u32,
        climb: u32,
    ) -> Option<QuarterRefusal> {
        Quarter::new(width, height, kinds, seconds, climb).err()
    }

    #[test]
    fn a_quarter_keeps_its_ranges(rt: HostRuntime) {
        let out_of_range = Some(QuarterRefusal::OutOfRange);
        assert_eq!(rt; refused(64, 1, 255, 65535, 65535), None);
        assert_eq!(rt; refused(8, 8, 1, 0, 0), None);
        assert_eq!(rt; refused(0, 1, 1, 0, 0), out_of_range);
        assert_eq!(rt; refused(1, 0, 1, 0, 0), out_of_range);
        assert_eq!(rt; refused(65, 1, 1, 0, 0), out_of_range);
        assert_eq!(rt; refused(13, 5, 1, 0, 0), out_of_range);
        assert_eq!(rt; refused(65536, 65536, 1, 0, 0), out_of_range);
        assert_eq!(rt; refused(1, 1, 0, 0, 0), out_of_range);
        assert_eq!(rt; refused(1, 1, 256, 0, 0), out_of_range);
        assert_eq!(rt; refused(1, 1, 1, 65536, 0), out_of_range);
        assert_eq!(rt; refused(1, 1, 1, 0, 65536), out_of_range);
        assert_eq!(rt; QuarterRefusal::OutOfRange.number(), 51);
    }

    // The set, size and least place of a stop's choices, or why there are none.
    fn told<S: Street>(street: &S, job: &Job, stop: usize) -> Result<(u64, u32, u32), Refusal> {
        choices(street, job, stop).map(|found| (found.set.bits(), found.size, found.least))
    }

    // A stop that hangs on another. The tests of the search have one like it; a constructor in `jobs` would be public for tests alone.
    fn hung(kind: u8, parent: u8, link: Link) -> Stop {
        Stop {
            kind,
            tie: Some(Tie { parent, link }),
        }
    }

    #[test]
    fn choices_are_the_places_of_a_kind(rt: HostRuntime) -> Result<(), Fail> {
        let kinds = [1u8, 2, 2, 0];
        let street = ListStreet::new(&kinds, &[]);
        let mut draft = Draft::new();
        draft.push(Stop { kind: 2, tie: None })?;
        draft.push(hung(0, 0, Link::Ride))?;
        draft.push(hung(3, 1, Link::Direct))?;
        let mut job = Job::new();
        assert_eq!(rt; told(&street, &job, 0), Ok((15, 4, 0)));
        assert_eq!(rt; job.put(draft)?, 3);
        assert_eq!(rt; told(&street, &job, 0), Ok((6, 2, 1)));
        assert_eq!(rt; told(&street, &job, 1), Ok((15, 4, 0)));
        assert_eq!(rt; told(&street, &job, 2), Ok((0, 0, 64)));
        assert_eq!(rt; told(&street, &job, 3), Err(Refusal::NoSuchStop));
        assert_eq!(rt; Refusal::NoSuchStop.number(), 52);
        Ok(())
    }
}
