// Small polynomials over F257, against values worked out independently.
use crate::message::evaluate;
use crate::polynomial::Polynomial;
use fields::f257::F257;
use fields::field::Field;
use fields::refusal::Refusal;

// The element that means a number below the order. One that the tests of several crates share would have to be public.
fn f257(number: u64) -> F257 {
    F257::from_number(number).unwrap_or(F257::ZERO)
}

// What the first so many coefficients are, written over eight nines.
fn written(p: Polynomial<F257>, count: usize) -> Result<[u64; 8], Refusal> {
    let mut output = [f257(9); 8];
    p.write(count, &mut output)?;
    Ok(output.map(|x| x.to_number()))
}

#[test]
fn values_of_messages(rt: HostRuntime) {
    let message = [f257(200), f257(256), f257(0), f257(131)];
    let x = f257(201);
    assert_eq!(rt; evaluate(&message, x).to_number(), 172);
    assert_eq!(rt;
        Polynomial::from_message(&message).value_at(x).to_number(),
        172
    );
}

#[test]
fn products_of_lines(rt: HostRuntime) {
    let p = Polynomial::line(f257(2), f257(9))
        .times_line(f257(5), f257(1))
        .times_line(f257(100), f257(200));
    assert_eq!(rt; written(p, 4), Ok([229, 102, 157, 27, 9, 9, 9, 9]));
    assert_eq!(rt; written(p, 9), Err(Refusal::TooShort));
}

#[test]
fn powers_up_to_the_sixth(rt: HostRuntime) {
    let (one, two) = (f257(1), f257(2));
    let mut p = Polynomial::line(one, two);
    for _ in 0..5 {
        p = p.times_line(one, two);
    }
    assert_eq!(rt; written(p, 7), Ok([1, 6, 15, 20, 15, 6, 1, 9]));
    let cut = p.times_line(one, two);
    assert_eq!(rt; written(cut, 8), Ok([1, 7, 21, 35, 35, 21, 7, 0]));
}

#[test]
fn square_less_itself(rt: HostRuntime) {
    let m = Polynomial::line(f257(3), f257(250));
    let error = m.times_line(f257(3), f257(250)).minus(m);
    assert_eq!(rt; written(error, 3), Ok([6, 207, 100, 9, 9, 9, 9, 9]));
    let square = error.plus(m).plus(Polynomial::zero());
    assert_eq!(rt; written(square, 3), Ok([9, 197, 100, 9, 9, 9, 9, 9]));
}
