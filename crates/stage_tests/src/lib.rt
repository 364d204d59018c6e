#![tactic(auto)]

// Tests of the plan of a job, its line and its text, and of what its memory holds.
#[cfg(test)]
mod tests {
    use fields::f31::F31;
    use fields::field::Field;
    use stages::increments::value_at;
    use stages::memory::{Tables, tables_fit};
    use stages::plan::{Kind, Plan};
    use std::alloc::Global;
    use std::process::Abort;
    use std::test::Fail;
    use tables::plain::PlainList;
    use tables::size::Sizes;
    use texts::page::answer;

    const MALFORMED: [&[u8]; 38] = [
        b"",
        b"\n",
        b"twist\n",
        b"twist\t1\t1\t1",
        b"twist\t1\t1\n",
        b"twist\t1\t1\t\n",
        b"twist\t1\t1\t1\t\n",
        b"twist\t1\t1\t1\t1\n",
        b"twist\t\t1\t1\t1\n",
        b"twist\t1\t\t1\t1\n",
        b"twist\t1 1\t1\n",
        b"twist 1 1 1\n",
        b"\ttwist\t1\t1\t1\n",
        b" twist\t1\t1\t1\n",
        b"twist \t1\t1\t1\n",
        b"twist\t1\t1\t1 \n",
        b"twist\t1\t1\t1\r\n",
        b"Twist\t1\t1\t1\n",
        b"TWIST\t1\t1\t1\n",
        b"Shout\t1\t1\t1\n",
        b"swist\t1\t1\t1\n",
        b"twis\t1\t1\t1\n",
        b"twists\t1\t1\t1\n",
        b"twist\t01\t1\t1\n",
        b"twist\t1\t00\t1\n",
        b"twist\t1\t1\t01\n",
        b"twist\t10000\t1\t1\n",
        b"twist\t1\t12345\t1\n",
        b"twist\t1\t1\t00001\n",
        b"twist\ta\t1\t1\n",
        b"twist\t1a\t1\t1\n",
        b"twist\t-1\t1\t1\n",
        b"twist\t+1\t1\t1\n",
        b"twist\t1.0\t1\t1\n",
        b"twist\t1\t1\t1\x00\n",
        b"\xfftwist\t1\t1\t1\n",
        b"twist\t1\t1\t\xb2\n",
        b"\n\ntwist\t1\t1\t1\n",
    ];

    // One past each limit, and far past them.
    const OUTSIDE: [&[u8]; 11] = [
        b"twist\t0\t1\t1\n",
        b"twist\t5\t1\t1\n",
        b"shout\t1\t0\t1\n",
        b"shout\t1\t7\t1\n",
        b"shout\t1\t1\t13\n",
        b"twist\t4\t3\t3\n",
        b"twist\t3\t5\t0\n",
        b"twist\t2\t1\t13\n",
        b"shout\t9999\t9999\t9999\n",
        b"shout\t0\t0\t0\n",
        b"twist\t4\t4\t0\n",
    ];

    // Lines at the limits among others, and their plans.
    const TAKEN: [(&[u8], &str); 9] = [
        (
            b"shout\t1\t1\t0\n",
            "1\tbits\tRA1\t1\t3\n2\trow\tRA1\t0\t1\n3\tread\t-\t0\t2\n",
        ),
        (
            b"twist\t1\t1\t0\n",
            "1\tbits\tRA1\t1\t3\n2\trow\tRA1\t0\t1\n3\tbits\tWA1\t1\t3\n4\trow\tWA1\t0\t1\n5\tread\t-\t0\t2\n6\tvalue\t-\t0\t-\n7\twrite\t-\t1\t3\n8\tvalue\t-\t0\t-\n",
        ),
        (
            b"twist\t1\t1\t1\n",
            "1\tbits\tRA1\t2\t3,3\n2\trow\tRA1\t1\t1\n3\tbits\tWA1\t2\t3,3\n4\trow\tWA1\t1\t1\n5\tread\t-\t1\t2,3\n6\tvalue\t-\t0\t2\n7\twrite\t-\t2\t3,3\n8\tvalue\t-\t0\t2\n",
        ),
        (
            b"shout\t2\t2\t3\n",
            "1\tbits\tRA1\t5\t3,3,3,3,3\n2\trow\tRA1\t3\t1,1\n3\tbits\tRA2\t5\t3,3,3,3,3\n4\trow\tRA2\t3\t1,1\n5\tread\t-\t3\t2,2,2,2,3,3,3\n",
        ),
        (
            b"twist\t4\t1\t10\n",
            "1\tbits\tRA1\t11\t3,3,3,3,3,3,3,3,3,3,3\n2\trow\tRA1\t10\t1\n3\tbits\tRA2\t11\t3,3,3,3,3,3,3,3,3,3,3\n4\trow\tRA2\t10\t1\n5\tbits\tRA3\t11\t3,3,3,3,3,3,3,3,3,3,3\n6\trow\tRA3\t10\t1\n7\tbits\tRA4\t11\t3,3,3,3,3,3,3,3,3,3,3\n8\trow\tRA4\t10\t1\n9\tbits\tWA1\t11\t3,3,3,3,3,3,3,3,3,3,3\n10\trow\tWA1\t10\t1\n11\tbits\tWA2\t11\t3,3,3,3,3,3,3,3,3,3,3\n12\trow\tWA2\t10\t1\n13\tbits\tWA3\t11\t3,3,3,3,3,3,3,3,3,3,3\n14\trow\tWA3\t10\t1\n15\tbits\tWA4\t11\t3,3,3,3,3,3,3,3,3,3,3\n16\trow\tWA4\t10\t1\n17\tread\t-\t10\t2,2,2,2,6,6,6,6,6,6,6,6,6,6\n18\tvalue\t-\t0\t2,2,2,2,2,2,2,2,2,2\n19\twrite\t-\t14\t3,3,3,3,6,6,6,6,6,6,6,6,6,6\n20\tvalue\t-\t0\t2,2,2,2,2,2,2,2,2,2\n",
        ),
        (
            b"twist\t4\t3\t2\n",
            "1\tbits\tRA1\t5\t3,3,3,3,3\n2\trow\tRA1\t2\t1,1,1\n3\tbits\tRA2\t5\t3,3,3,3,3\n4\trow\tRA2\t2\t1,1,1\n5\tbits\tRA3\t5\t3,3,3,3,3\n6\trow\tRA3\t2\t1,1,1\n7\tbits\tRA4\t5\t3,3,3,3,3\n8\trow\tRA4\t2\t1,1,1\n9\tbits\tWA1\t5\t3,3,3,3,3\n10\trow\tWA1\t2\t1,1,1\n11\tbits\tWA2\t5\t3,3,3,3,3\n12\trow\tWA2\t2\t1,1,1\n13\tbits\tWA3\t5\t3,3,3,3,3\n14\trow\tWA3\t2\t1,1,1\n15\tbits\tWA4\t5\t3,3,3,3,3\n16\trow\tWA4\t2\t1,1,1\n17\tread\t-\t2\t2,2,2,2,2,2,2,2,2,2,2,2,6,6\n18\tvalue\t-\t0\t2,2\n19\twrite\t-\t14\t3,3,3,3,3,3,3,3,3,3,3,3,6,6\n20\tvalue\t-\t0\t2,2\n",
        ),
        (
            b"shout\t1\t6\t8\n",
            "1\tbits\tRA1\t14\t3,3,3,3,3,3,3,3,3,3,3,3,3,3\n2\trow\tRA1\t8\t1,1,1,1,1,1\n3\tread\t-\t8\t2,2,2,2,2,2,2,2,2,2,2,2,2,2\n",
        ),
        (
            b"twist\t1\t1\t12\n",
            "1\tbits\tRA1\t13\t3,3,3,3,3,3,3,3,3,3,3,3,3\n2\trow\tRA1\t12\t1\n3\tbits\tWA1\t13\t3,3,3,3,3,3,3,3,3,3,3,3,3\n4\trow\tWA1\t12\t1\n5\tread\t-\t12\t2,3,3,3,3,3,3,3,3,3,3,3,3\n6\tvalue\t-\t0\t2,2,2,2,2,2,2,2,2,2,2,2\n7\twrite\t-\t13\t3,3,3,3,3,3,3,3,3,3,3,3,3\n8\tvalue\t-\t0\t2,2,2,2,2,2,2,2,2,2,2,2\n",
        ),
        (
            b"shout\t2\t6\t2\n",
            "1\tbits\tRA1\t8\t3,3,3,3,3,3,3,3\n2\trow\tRA1\t2\t1,1,1,1,1,1\n3\tbits\tRA2\t8\t3,3,3,3,3,3,3,3\n4\trow\tRA2\t2\t1,1,1,1,1,1\n5\tread\t-\t2\t2,2,2,2,2,2,2,2,2,2,2,2,3,3\n",
        ),
    ];

    // The place of each count of challenges.
    const SHOUT_PLACES: [(usize, usize); 13] = [
        (1, 0),
        (1, 0),
        (1, 0),
        (1, 1),
        (1, 2),
        (1, 3),
        (2, 0),
        (2, 1),
        (2, 2),
        (3, 0),
        (3, 1),
        (3, 2),
        (3, 3),
    ];

    const TWIST_PLACES: [(usize, usize); 21] = [
        (1, 0),
        (1, 0),
        (1, 1),
        (1, 2),
        (2, 0),
        (2, 1),
        (3, 0),
        (3, 0),
        (3, 1),
        (3, 2),
        (4, 0),
        (4, 1),
        (5, 0),
        (5, 1),
        (5, 2),
        (6, 1),
        (7, 0),
        (7, 0),
        (7, 1),
        (7, 2),
        (8, 1),
    ];

    fn says(rt: &impl Abort, heap: Global, input: &[u8], expected: &str) -> Result<(), Fail> {
        assert_eq!(rt; answer(heap, input)?.as_str(), expected);
        Ok(())
    }

    fn all_say(rt: &impl Abort, heap: Global, lines: &[&[u8]], expected: &str) -> Result<(), Fail> {
        for line in lines {
            says(rt, heap, line, expected)?;
        }
        Ok(())
    }

    #[test]
    fn malformed_lines_are_refused(rt: HostRuntime) -> Result<(), Fail> {
        all_say(&rt, rt.alloc(), &MALFORMED, "refused\t10\n")
    }

    #[test]
    fn sizes_outside_the_limits_are_refused(rt: HostRuntime) -> Result<(), Fail> {
        all_say(&rt, rt.alloc(), &OUTSIDE, "refused\t2\n")
    }

    #[test]
    fn a_line_gives_its_plan(rt: HostRuntime) -> Result<(), Fail> {
        for (line, text) in TAKEN {
            says(&rt, rt.alloc(), line, text)?;
        }
        Ok(())
    }

    #[test]
    fn only_the_first_line_is_read(rt: HostRuntime) -> Result<(), Fail> {
        says(
            &rt,
            rt.alloc(),
            b"shout\t1\t1\t0\nshout\n",
            "1\tbits\tRA1\t1\t3\n2\trow\tRA1\t0\t1\n3\tread\t-\t0\t2\n",
        )
    }

    fn places(rt: &impl Abort, plan: Plan, expected: &[(usize, usize)]) {
        assert_eq!(rt; plan.challenge_count(), expected.len());
        for (count, place) in expected.iter().enumerate() {
            assert_eq!(rt; plan.place(count), *place);
        }
        assert_eq!(rt; plan.place(expected.len()), (0, 0));
        assert_eq!(rt; plan.place(usize::MAX), (0, 0));
    }

    #[test]
    fn a_count_has_its_place(rt: HostRuntime) -> Result<(), Fail> {
        let shout = Plan {
            kind: Kind::Shout,
            sizes: Sizes::new(1, 2, 1)?,
        };
        places(&rt, shout, &SHOUT_PLACES);
        let twist = Plan {
            kind: Kind::Twist,
            sizes: Sizes::new(1, 1, 1)?,
        };
        places(&rt, twist, &TWIST_PLACES);
        Ok(())
    }

    #[test]
    fn challenges_are_counted(rt: HostRuntime) -> Result<(), Fail> {
        let twist = Plan {
            kind: Kind::Twist,
            sizes: Sizes::new(4, 1, 10)?,
        };
        assert_eq!(rt; twist.challenge_count(), 336);
        assert_eq!(rt; twist.stage_count(), 20);
        Ok(())
    }

    // The numbers are below the order. A function that the tests of several crates share would have to be public.
    fn element(number: u64) -> F31 {
        F31::from_number(number).unwrap_or(F31::ZERO)
    }

    // Two cycles write 9 and then 4 to cell 1: before cycle j the cells hold 9·a·j at an address a, also between the corners.
    #[test]
    fn what_the_memory_holds(rt: HostRuntime) -> Result<(), Fail> {
        let sizes = Sizes::new(1, 1, 1)?;
        let entries = [0, 0, 9, 2147483642].map(element);
        let inc = PlainList::new(&entries)?;
        let point = [0, 1, 2, 3].map(element);
        assert_eq!(rt;
            value_at(sizes, &inc, &point[1..2], &point[1..2])?.to_number(),
            9
        );
        assert_eq!(rt;
            value_at(sizes, &inc, &point[1..2], &point[0..1])?.to_number(),
            0
        );
        assert_eq!(rt;
            value_at(sizes, &inc, &point[2..3], &point[3..4])?.to_number(),
            54
        );
        // Refusals by the numbers of the protocol.
        assert_eq!(rt;
            value_at(sizes, &inc, &point[0..2], &point[3..4]).map_err(u8::from),
            Err(7)
        );
        assert_eq!(rt;
            value_at(Sizes::new(1, 1, 0)?, &inc, &point[1..2], &point[0..0]).map_err(u8::from),
            Err(4)
        );
        Ok(())
    }

    #[test]
    fn tables_that_fit(rt: HostRuntime) -> Result<(), Fail> {
        let entries = [1, 0, 0, 1].map(element);
        let two = PlainList::new(&entries)?;
        let one = PlainList::new(&entries[0..2])?;
        let chunks = [two, two];
        let shout = Tables::Shout {
            ra: &chunks[0..1],
            val: &one,
            rv: &one,
        };
        assert!(rt; tables_fit::<F31, _, _, _>(Sizes::new(1, 1, 1)?, &shout));
        assert!(rt; !tables_fit::<F31, _, _, _>(Sizes::new(1, 1, 0)?, &shout));
        let many = Tables::Shout {
            ra: &chunks,
            val: &one,
            rv: &one,
        };
        assert!(rt; !tables_fit::<F31, _, _, _>(Sizes::new(1, 1, 1)?, &many));
        let twist = Tables::Twist {
            ra: &chunks[0..1],
            wa: &chunks[0..1],
            inc: &two,
            rv: &one,
            wv: &one,
        };
        assert!(rt; tables_fit::<F31, _, _, _>(Sizes::new(1, 1, 1)?, &twist));
        Ok(())
    }
}
