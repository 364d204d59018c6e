#![tactic(auto)]

// Every message and end value of three jobs of Twist, at each count of challenges. The expected values were computed
// apart: each summand evaluated by its definition at one point more than its degree, and the polynomial interpolated.
#[cfg(test)]
mod tests {
    use fields::f31::F31;
    use fields::field::Field;
    use fields::refusal::Refusal;
    use stages::memory::Tables;
    use stages::prover::{make_end_value, make_message};
    use std::process::Abort;
    use std::test::Fail;
    use tables::plain::PlainList;
    use tables::size::Sizes;

    const SMALLEST_ENTRIES: [u64; 16] = [1, 0, 0, 1, 0, 0, 1, 1, 0, 0, 9, 2147483642, 0, 9, 9, 4];

    const SMALLEST_CHALLENGES: [u64; 21] = [
        5695978, 72647222, 2060741258, 451252231, 469811080, 823330360, 1647436178, 2072299828,
        49236481, 1577260769, 1216843308, 270607724, 1509904150, 1135729117, 1817666091, 820513182,
        950906701, 901892993, 1488173119, 129151452, 124712251,
    ];

    const SMALLEST_MESSAGES: [(usize, &[u64]); 12] = [
        (2, &[0, 5695977, 2130395715, 11391955]),
        (3, &[2064729204, 382915767, 445273624, 1184918297]),
        (5, &[1677672568, 939622159]),
        (8, &[0, 1647436177, 1500142409, 1147388708]),
        (9, &[2131276275, 489128460, 0, 0]),
        (11, &[0, 1]),
        (13, &[0, 0, 704235468]),
        (14, &[0, 1527543953, 2076632819, 2105604250]),
        (15, &[286867126, 459941593, 1400674928]),
        (18, &[0, 1577482674, 701302273, 921301673]),
        (19, &[1592324555, 203790570, 1977535550, 0]),
        (20, &[247857546, 798242036, 1101384065]),
    ];

    const SMALLEST_END_VALUES: [(usize, u64); 2] = [(15, 286867126), (20, 247857546)];

    const TWO_CHUNKS_ENTRIES: [u64; 28] = [
        0, 0, 1, 1, 1, 0, 0, 1, 0, 1, 1, 0, 0, 1, 1, 0, 0, 2147483646, 0, 0, 0, 0, 100, 0, 0, 100,
        100, 2147483646,
    ];

    const TWO_CHUNKS_CHALLENGES: [u64; 36] = [
        10523078, 1153357446, 203727391, 797271348, 30801421, 756709367, 568502634, 1644604448,
        673330759, 184070344, 1119727585, 354344192, 1988727324, 1042668610, 82238571, 1188281085,
        228042665, 1993791340, 674649188, 1548930840, 1649923688, 1887810806, 194339628, 759613092,
        1147775054, 1319022681, 1948668295, 88562051, 1486306291, 209810238, 217119246, 842926306,
        523057217, 529684028, 437414406, 371574722,
    ];

    const TWO_CHUNKS_MESSAGES: [(usize, &[u64]); 20] = [
        (2, &[0, 10523077, 2115914415, 21046155]),
        (3, &[2090347232, 967848016, 0, 0]),
        (5, &[0, 1]),
        (8, &[0, 568502633, 441975747, 1137005267]),
        (9, &[1240048177, 742432122, 452001768, 1933107348]),
        (11, &[1027756063, 91971522]),
        (14, &[0, 1988727323, 476268971, 1829971000]),
        (15, &[1172498802, 946201586, 803961909, 224798608]),
        (17, &[228042665, 1691398318]),
        (20, &[0, 674649187, 123536085, 1349298375]),
        (21, &[1200678849, 321833031, 1801961181, 2138974939]),
        (23, &[194339628, 1758804392]),
        (25, &[0, 0, 960872109]),
        (26, &[0, 0, 1350292451]),
        (27, &[0, 1246147262, 536677897, 746343115, 0]),
        (28, &[1420026815, 533783545, 193673287]),
        (32, &[632575337, 750304306, 980889704, 0]),
        (33, &[325020662, 880271625, 1057726760, 508651856]),
        (
            34,
            &[914379897, 1447087204, 816109839, 1635413009, 1037645121],
        ),
        (35, &[180385960, 1137085829, 830011858]),
    ];

    const TWO_CHUNKS_END_VALUES: [(usize, u64); 2] = [(28, 1420026815), (35, 180385960)];

    const WIDER_ENTRIES: [u64; 56] = [
        0, 0, 0, 1, 1, 0, 0, 0, 0, 1, 1, 0, 0, 0, 0, 0, 0, 0, 0, 1, 0, 0, 1, 0, 1, 1, 0, 0, 0, 0,
        0, 0, 0, 0, 0, 0, 0, 0, 5, 0, 7, 13, 0, 0, 0, 0, 0, 0, 0, 7, 20, 0, 7, 20, 5, 0,
    ];

    const WIDER_CHALLENGES: [u64; 42] = [
        6226959, 2081310956, 1233699475, 38342768, 1860334061, 1009275579, 927458067, 736763148,
        1964722788, 1960880734, 1184685742, 623416119, 231134838, 932218933, 767775605, 23449029,
        184196890, 785778610, 1463109996, 1487918027, 700507402, 2062779927, 75595768, 508600875,
        639784621, 81112784, 532507983, 1461076450, 2110866823, 1995813824, 1665210237, 1050443017,
        1698484290, 904487424, 22416747, 1894519996, 1931103068, 453530099, 903111311, 168059181,
        1338991332, 1635263213,
    ];

    const WIDER_MESSAGES: [(usize, &[u64]); 24] = [
        (4, &[0, 1721233842, 2054019760, 519713692]),
        (5, &[153406207, 1494094493, 1856389387, 677304267]),
        (6, &[1330701639, 1427481037, 148139979, 2122530873]),
        (7, &[2129870249, 1372405351, 871330552, 837497694]),
        (10, &[2042104516, 210758263]),
        (11, &[534385439, 43683042]),
        (16, &[0, 1974641033, 1217101565, 1103224696]),
        (17, &[1732404105, 1711309633, 1635318610, 11563262]),
        (18, &[518230863, 1960819040, 453994662, 225763787]),
        (19, &[2069359109, 1622860608, 212979873, 872165464]),
        (22, &[700507402, 746468844]),
        (23, &[1982975456, 1373540165]),
        (26, &[0, 2078466525, 426021898]),
        (27, &[357738156, 310616256, 1479129235]),
        (28, &[1275717578, 1611867412, 2127085019, 1836599021]),
        (29, &[617441548, 448278520, 1359725823, 2123982760]),
        (30, &[307431592, 1191492226, 1310122128]),
        (31, &[1187630695, 1970266704, 511676453]),
        (36, &[1276972761, 398291931, 2119037421, 664405284]),
        (37, &[1223588679, 342646048, 638480094, 1485904915]),
        (38, &[143034690, 2082286757, 379220179, 1543910191]),
        (39, &[1126633208, 1713597432, 2009746644, 205769358]),
        (40, &[1528813591, 1259278589, 423543217]),
        (41, &[508008023, 670742301, 1866033912]),
    ];

    const WIDER_END_VALUES: [(usize, u64); 2] = [(30, 968993891), (40, 445481694)];

    type Plain<'a> = PlainList<'a, F31>;

    // The element that means a number. One that the tests of several crates share would have to be public.
    fn element(number: u64) -> F31 {
        F31::from_number(number).unwrap_or(F31::ZERO)
    }

    // What an output list of eight nines holds after a message was written, or after none was.
    fn written(message: Option<&[u64]>) -> [u64; 8] {
        let mut numbers = [9; 8];
        for (place, number) in numbers.iter_mut().zip(message.unwrap_or(&[])) {
            *place = *number;
        }
        numbers
    }

    // At each count the message and the end value that are due, and the refusals where none is. The lists of a job are
    // short, and are searched as they stand.
    fn proves<'a>(
        rt: &impl Abort,
        sizes: Sizes,
        tables: &Tables<'a, Plain<'a>, Plain<'a>, Plain<'a>>,
        challenges: &[F31],
        messages: &[(usize, &[u64])],
        end_values: &[(usize, u64)],
    ) {
        for count in 0..=challenges.len() {
            let so_far = &challenges[..count];
            let mut output = [9; 8].map(element);
            let answer = make_message(sizes, tables, so_far, &mut output);
            let message = messages.iter().find(|m| m.0 == count).map(|m| m.1);
            assert_eq!(rt; answer, message.map(|_| ()).ok_or(Refusal::NothingDue));
            assert_eq!(rt; output.map(|x| x.to_number()), written(message));
            let end_value = end_values.iter().find(|e| e.0 == count).map(|e| e.1);
            let expected = end_value.ok_or(Refusal::NothingDue);
            let value = make_end_value(sizes, tables, so_far).map(|x| x.to_number());
            assert_eq!(rt; value, expected);
        }
    }

    #[test]
    fn one_chunk_of_one_bit(rt: HostRuntime) -> Result<(), Fail> {
        let all = SMALLEST_ENTRIES.map(element);
        let tables = Tables::Twist {
            ra: &[PlainList::new(&all[0..4])?],
            wa: &[PlainList::new(&all[4..8])?],
            inc: &PlainList::new(&all[8..12])?,
            rv: &PlainList::new(&all[12..14])?,
            wv: &PlainList::new(&all[14..16])?,
        };
        let challenges = SMALLEST_CHALLENGES.map(element);
        proves(
            &rt,
            Sizes::new(1, 1, 1)?,
            &tables,
            &challenges,
            &SMALLEST_MESSAGES,
            &SMALLEST_END_VALUES,
        );
        Ok(())
    }

    #[test]
    fn two_chunks_of_one_bit(rt: HostRuntime) -> Result<(), Fail> {
        let all = TWO_CHUNKS_ENTRIES.map(element);
        let tables = Tables::Twist {
            ra: &[PlainList::new(&all[0..4])?, PlainList::new(&all[4..8])?],
            wa: &[PlainList::new(&all[8..12])?, PlainList::new(&all[12..16])?],
            inc: &PlainList::new(&all[16..24])?,
            rv: &PlainList::new(&all[24..26])?,
            wv: &PlainList::new(&all[26..28])?,
        };
        let challenges = TWO_CHUNKS_CHALLENGES.map(element);
        proves(
            &rt,
            Sizes::new(2, 1, 1)?,
            &tables,
            &challenges,
            &TWO_CHUNKS_MESSAGES,
            &TWO_CHUNKS_END_VALUES,
        );
        Ok(())
    }

    #[test]
    fn one_chunk_of_two_bits(rt: HostRuntime) -> Result<(), Fail> {
        let all = WIDER_ENTRIES.map(element);
        let tables = Tables::Twist {
            ra: &[PlainList::new(&all[0..16])?],
            wa: &[PlainList::new(&all[16..32])?],
            inc: &PlainList::new(&all[32..48])?,
            rv: &PlainList::new(&all[48..52])?,
            wv: &PlainList::new(&all[52..56])?,
        };
        let challenges = WIDER_CHALLENGES.map(element);
        proves(
            &rt,
            Sizes::new(1, 2, 2)?,
            &tables,
            &challenges,
            &WIDER_MESSAGES,
            &WIDER_END_VALUES,
        );
        Ok(())
    }
}
