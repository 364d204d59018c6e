// The worked examples as calls, the kinds of tables at all corners, and refusals with what they leave as it was.
use crate::counting::Counting;
use crate::formulas::{eq_at, extension_at, extension_joined, lt_at};
use crate::maker::{Operation, RunLists, make_run};
use crate::one_hot::OneHot;
use crate::plain::PlainList;
use crate::size::Sizes;
use crate::table::{Committed, Listed};
use fields::f31::F31;
use fields::f257::F257;
use fields::field::Field;
use fields::refusal::Refusal;
use std::process::Abort;
use std::test::Fail;

// The element of F31 that means a number below its order.
// Without a Result, so that it can stand in arrays. One that the tests of several crates share would have to be public.
fn f31(number: u64) -> F31 {
    F31::from_number(number).unwrap_or(F31::ZERO)
}

#[test]
fn extension_of_four(rt: HostRuntime) {
    let list = [f31(1), f31(2), f31(3), f31(4)];
    let point = [f31(2), f31(3)];
    assert_eq!(rt; extension_at(&list, &point), Ok(f31(8)));
    assert_eq!(rt;
        extension_joined(&list, &point[0..1], &point[1..]),
        Ok(f31(8))
    );
    assert_eq!(rt;
        extension_at(&list[0..3], &point),
        Err(Refusal::OutsideLimits)
    );
    assert_eq!(rt;
        extension_at(&list, &point[1..]),
        Err(Refusal::OutsideTable)
    );
}

#[test]
fn formulas_of_pairs(rt: HostRuntime) -> Result<(), Fail> {
    assert_eq!(rt; eq_at(&[f31(2)], &[f31(5)]), Ok(f31(14)));
    assert_eq!(rt; eq_at(&[f31(2)], &[]), Err(Refusal::OutsideTable));
    let less = lt_at(&[F257::from_number(2)?], &[F257::from_number(3)?]);
    assert_eq!(rt; less, F257::from_number(254));
    assert_eq!(rt; lt_at(&[f31(2)], &[]), Err(Refusal::OutsideTable));
    Ok(())
}

// A table of two variables gives its entries at the corners.
fn opens_to_entries<T: Listed<F31>>(rt: &impl Abort, table: &T) {
    assert_eq!(rt; table.vars(), 2);
    for i in 0..4 {
        let corner = [f31(i / 2), f31(i % 2)];
        assert_eq!(rt;
            table.open(&corner[0..1], &corner[1..]),
            table.entry(i as usize)
        );
    }
    assert_eq!(rt; table.entry(4), Err(Refusal::OutsideTable));
    assert_eq!(rt; table.open(&[], &[]), Err(Refusal::OutsideTable));
}

#[test]
fn kinds_at_corners(rt: HostRuntime) -> Result<(), Fail> {
    opens_to_entries(
        &rt,
        &PlainList::new(&[f31(7), f31(0), f31(5), f31(2147483646)])?,
    );
    opens_to_entries(&rt, &Counting::new(2)?);
    let sizes = Sizes::new(2, 1, 1)?;
    let chunks = [
        OneHot::new(sizes, 1, &[2, 1])?,
        OneHot::new(sizes, 2, &[2, 1])?,
    ];
    for table in &chunks[..] {
        opens_to_entries(&rt, table);
    }
    Ok(())
}

#[test]
fn kinds_refused(rt: HostRuntime) -> Result<(), Fail> {
    let sizes = Sizes::new(2, 1, 1)?;
    assert!(rt; OneHot::new(sizes, 3, &[2, 1]).is_err());
    assert!(rt; OneHot::new(sizes, 1, &[2, 4]).is_err());
    assert!(rt; OneHot::new(sizes, 1, &[2]).is_err());
    assert!(rt; Counting::new(15).is_err());
    assert!(rt; Sizes::new(4, 3, 2).is_ok() && Sizes::new(4, 3, 3).is_err());
    Ok(())
}

// A cycle that reads a cell, and then writes an element to one.
fn operation(read: usize, write: usize, value: u64) -> Operation<F31> {
    Operation {
        read,
        write,
        value: f31(value),
    }
}

#[test]
fn run_of_two_operations(rt: HostRuntime) -> Result<(), Fail> {
    let sizes = Sizes::new(1, 1, 1)?;
    let operations = [operation(0, 1, 9), operation(1, 1, 4)];
    let (mut reads, mut writes) = ([7; 2], [7; 2]);
    let (mut rv, mut wv, mut inc) = ([f31(7); 2], [f31(7); 2], [f31(7); 5]);
    let mut lists = RunLists {
        reads: &mut reads,
        writes: &mut writes,
        rv: &mut rv,
        wv: &mut wv,
        inc: &mut inc,
    };
    assert_eq!(rt; make_run(sizes, &operations, &mut lists), Ok(()));
    assert_eq!(rt; (reads, writes), ([0, 1], [1, 1]));
    assert_eq!(rt; (rv, wv), ([f31(0), f31(9)], [f31(9), f31(4)]));
    assert_eq!(rt; inc, [f31(0), f31(0), f31(9), f31(2147483642), f31(7)]);
    Ok(())
}

#[test]
fn run_is_filled_up(rt: HostRuntime) -> Result<(), Fail> {
    let sizes = Sizes::new(1, 1, 1)?;
    let operations = [operation(0, 0, 3), operation(2, 0, 0)];
    let (mut reads, mut writes) = ([7; 2], [7; 2]);
    let (mut rv, mut wv, mut inc) = ([f31(7); 2], [f31(7); 2], [f31(7); 4]);
    let mut lists = RunLists {
        reads: &mut reads,
        writes: &mut writes,
        rv: &mut rv,
        wv: &mut wv,
        inc: &mut inc,
    };
    assert_eq!(rt;
        make_run(sizes, &operations, &mut lists),
        Err(Refusal::AddressTooLarge(1))
    );
    assert_eq!(rt; &*lists.reads, [7; 2].as_slice());
    assert_eq!(rt; make_run(sizes, &operations[..1], &mut lists), Ok(()));
    assert_eq!(rt; rv, [f31(0), f31(3)]);
    assert_eq!(rt; inc, [f31(3), f31(2147483644), f31(0), f31(0)]);
    Ok(())
}
