// Against arithmetic by remainders, and at the edges.
use crate::f31::F31;
use crate::f257::F257;
use crate::field::Field;
use crate::p31::P31;
use crate::refusal::Refusal;
use std::test::Fail;

const Q: u64 = 2147483647;

// The orders stand where a constant is needed: in another, in a pattern, and in the length of an array.
const ORDER: u64 = F31::ORDER;

fn is_order(number: u64) -> bool {
    match number {
        F257::ORDER => true,
        _ => false,
    }
}

#[test]
fn f257_products(rt: HostRuntime) -> Result<(), Fail> {
    for a in 0..257u64 {
        for b in 0..257u64 {
            let product = F257::from_number(a)?.times(F257::from_number(b)?);
            assert_eq!(rt; product.to_number(), a.wrapping_mul(b) % 257);
        }
    }
    assert_eq!(rt; F257::from_number(257), Err(Refusal::NotBelowOrder));
    Ok(())
}

#[test]
fn f31_edges(rt: HostRuntime) -> Result<(), Fail> {
    let numbers = [0, 1, 2, 1073741824, 2147483645, 2147483646];
    for a in numbers {
        for b in numbers {
            let x = F31::from_number(a)?;
            let y = F31::from_number(b)?;
            let results = (x.plus(y), x.minus(y), x.times(y), x.negated());
            let sum = F31::from_number(a.wrapping_add(b) % Q)?;
            let difference = F31::from_number(a.wrapping_add(Q).wrapping_sub(b) % Q)?;
            let product = F31::from_number(a.wrapping_mul(b) % Q)?;
            let negative = F31::from_number(Q.wrapping_sub(a) % Q)?;
            assert_eq!(rt; results, (sum, difference, product, negative));
        }
    }
    assert_eq!(rt; F31::from_number(2147483647), Err(Refusal::NotBelowOrder));
    Ok(())
}

#[test]
fn p31_edges(rt: HostRuntime) -> Result<(), Fail> {
    let numbers = [
        0,
        1,
        2147483646,
        2147483647,
        4294967295,
        4611686011984936962,
        4611686014132420608,
    ];
    for m in numbers {
        for n in numbers {
            let (a, b) = (m % Q, m / Q);
            let (c, d) = (n % Q, n / Q);
            let re = a
                .wrapping_mul(c)
                .wrapping_add((Q.wrapping_sub(b)).wrapping_mul(d))
                % Q;
            let im = a.wrapping_mul(d).wrapping_add(b.wrapping_mul(c)) % Q;
            let product = P31::from_number(m)?.times(P31::from_number(n)?);
            assert_eq!(rt; product.to_number(), re.wrapping_add(im.wrapping_mul(Q)));
        }
    }
    assert_eq!(rt;
        P31::from_number(4611686014132420609),
        Err(Refusal::NotBelowOrder)
    );
    Ok(())
}

#[test]
fn shown_by_meaning(rt: HostRuntime) -> Result<(), Fail> {
    let x = P31::from_number(4611686014132420608)?;
    let text = format!(in rt.alloc(); "{x}")?;
    assert_eq!(rt; text.as_str(), "4611686014132420608");
    Ok(())
}

#[test]
fn orders_are_constants(rt: HostRuntime) -> Result<(), Fail> {
    assert_eq!(rt; (ORDER, F31::field_order()), (Q, Q));
    assert_eq!(rt; (is_order(256), is_order(257)), (false, true));
    assert_eq!(rt;
        ([0; F257::ORDER as usize].len(), F257::field_order()),
        (257, 257)
    );
    Ok(())
}

#[test]
fn debugged_by_field(rt: HostRuntime) -> Result<(), Fail> {
    let values = (F31::ONE, F257::ONE, P31::ONE);
    let text = format!(in rt.alloc(); "{values:?}")?;
    assert_eq!(rt;
        text.as_str(),
        "(F31 { value: 1 }, F257 { value: 1 }, P31 { re: F31 { value: 1 }, im: F31 { value: 0 } })"
    );
    Ok(())
}
