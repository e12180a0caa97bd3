// The tests of the day sheet, each over sheets and what they print.
use sheet::run;
use std::alloc::Global;
use std::process::Abort;
use std::test::Fail;

// Each sheet prints the text beside it.
fn prints(rt: &(impl Abort + AllocGlobal), sheets: &[(&str, &str)]) -> Result<(), Fail> {
    for (sheet, text) in sheets {
        let out = run(rt.alloc(), sheet.as_bytes())?;
        assert_eq!(rt; out.as_str(), *text);
    }
    Ok(())
}

#[test]
fn first_line(rt: HostRuntime) -> Result<(), Fail> {
    prints(
        &rt,
        &[
            ("", "1 ? N 23 s\nend 0 0 0\n"),
            ("AFG 1", "1 ? N 23 s\nend 0 0 0\n"),
            ("AFG 2\n", "1 ? N 23 s\nend 0 0 0\n"),
            ("AFG  1\n", "1 ? N 23 s\nend 0 0 0\n"),
            ("AFG 1 \n", "1 ? N 23 s\nend 0 0 0\n"),
            ("AFG 1\r\n", "1 ? N 23 s\nend 0 0 0\n"),
            ("AFG 1\n", "2 O N 52 h\nend 0 0 0\n"),
        ],
    )
}

#[test]
fn head_house_and_opening(rt: HostRuntime) -> Result<(), Fail> {
    prints(
        &rt,
        &[
            ("AFG 1\nH 1 x\n", "2 ? N 24 s\nend 0 0 0\n"),
            ("AFG 1\nHello\n", "2 ? N 24 s\nend 0 0 0\n"),
            ("AFG 1\nH 0 7", "2 ? N 24 s\nend 0 0 0\n"),
            ("AFG 1\nH 0 0\nH 0 0\nH 5\n", "4 ? N 24 s\nend 0 0 0\n"),
            ("AFG 1\nH 5 0\nH 5 0\n", "4 O N 26 h\nend 0 0 0\n"),
            ("AFG 1\nH 0 1\njunk\n", "3 O N 43 b\nend 0 0 0\n"),
            ("AFG 1\nJ 10", "2 O N 52 h\nend 0 0 0\n"),
            ("AFG 1\n\n", "2 O N 52 h\nend 0 0 0\n"),
            (
                "AFG 1\nP PLAAAAAAAAA1 1 0 1\nH 0 0\n",
                "2 O N 52 h\nend 0 0 0\n",
            ),
            (
                "AFG 1\nH 0 0\nC\nH 1 0\n",
                "3 C N 37 b\n4 ? N 24 s\nend 0 0 0\n",
            ),
            ("AFG 1\nH 4294967306 0\n", "3 O N 26 h\nend 0 0 0\n"),
            ("AFG 1\nH 10 10000000000\n", "2 ? N 24 s\nend 0 0 0\n"),
        ],
    )
}

#[test]
fn lines_that_stop(rt: HostRuntime) -> Result<(), Fail> {
    prints(
        &rt,
        &[
            ("AFG 1\nH 0 0\n\n", "3 ? N 24 s\nend 0 0 0\n"),
            ("AFG 1\nH 0 0\n ", "3 ? N 24 s\nend 0 0 0\n"),
            ("AFG 1\nH 0 0\nC\r\n", "3 ? N 24 s\nend 0 0 0\n"),
            ("AFG 1\nH 0 0\nC 1\n", "3 ? N 24 s\nend 0 0 0\n"),
            ("AFG 1\nH 0 0\nJ  10\n", "3 ? N 24 s\nend 0 0 0\n"),
            ("AFG 1\nH 0 0\nJ\n", "3 ? N 24 s\nend 0 0 0\n"),
            ("AFG 1\nH 0 0\nJ 010\n", "3 ? N 24 s\nend 0 0 0\n"),
            ("AFG 1\nH 0 0\nI 00\n", "3 ? N 24 s\nend 0 0 0\n"),
            ("AFG 1\nH 0 0\nI 10000000000\n", "3 ? N 24 s\nend 0 0 0\n"),
            (
                "AFG 1\nH 0 0\nT 10 PLAAAAAAAAA1 B 1 1\n",
                "3 ? N 24 s\nend 0 0 0\n",
            ),
            (
                "AFG 1\nH 0 0\nT 10 PLAAAAAAAAA K 1 1\n",
                "3 ? N 24 s\nend 0 0 0\n",
            ),
            ("AFG 1\nH 0 0\nj 10\n", "3 ? N 24 s\nend 0 0 0\n"),
            (
                "AFG 1\nH 0 0\nH 1 1000\nH 10 2000000\nJ 10\njunk\nJ 10\n",
                "5 J 2000000\n6 ? N 24 s\nend 2000000 2000000 1\n",
            ),
        ],
    )
}

#[test]
fn numbers_keep_their_width(rt: HostRuntime) -> Result<(), Fail> {
    prints(
        &rt,
        &[
            (
                "AFG 1\nH 0 0\nH 1 9\nJ 9\nJ 9999999999\nL 4294967306\n",
                "4 J N 11 b\n5 J N 11 b\n6 L N 11 b\nend 0 0 0\n",
            ),
            (
                "AFG 1\nH 0 0\nH 1 9\nX 70000 80000 5\nX 70000 70000 5\nX 4294967296 1 5\nX 0 0 0\nX 7 7 0\n",
                "4 X N 52 h\n5 X N 22 h\n6 X N 52 h\n7 X N 21 b\n8 X N 12 h\nend 0 0 0\n",
            ),
            (
                "AFG 1\nH 0 0\nH 1 1000\nH 10 2000000\nP PLAAAAAAAAA1 1000 1250 10000\nT 4294967306 PLAAAAAAAAA1 K 50000 1040\nJ 10\nU 10\n",
                "7 J 2000000\n8 U 2000000\nend 2000000 2000000 1\n",
            ),
            (
                "AFG 1\nH 0 0\nH 1 1000\nH 10 2000000\nJ 10\nI 0\nI 4000000001\nX 1 10 4000000001\n",
                "5 J 2000000\n6 I N 12 b\n7 I N 12 b\n8 X N 12 h\nend 2000000 2000000 1\n",
            ),
        ],
    )
}

#[test]
fn updates_take_the_lines_above(rt: HostRuntime) -> Result<(), Fail> {
    prints(
        &rt,
        &[
            (
                "AFG 1\nH 0 0\nH 10 10000000\nP PLAAAAAAAAA1 1000 1250 10000\nT 10 PLAAAAAAAAA1 K 50000 1040\nJ 10\nU 10\nT 10 PLAAAAAAAAA1 S 20000 990\nU 10\nR 10\nD 10\njunk\nC\n",
                "6 J 2000000\n7 U 8250000\n9 U 5950000\n10 R 3950000 0\n11 D 1\n12 ? N 24 s\n13 C 1\nend 5950000 5950000 1\n",
            ),
            (
                "AFG 1\nH 0 0\nH 10 2000000\nJ 10\nT 10 PLAAAAAAAAA1 K 1 1\nU 10\nP PLAAAAAAAAA1 1 0 1\nU 10\nP PLAAAAAAAAA1 1 0 1\nU 10\nU 9\nU 11\n",
                "4 J 2000000\n6 U N 17 c\n8 U 2000000\n10 U N 15 c\n11 U N 11 b\n12 U N 15 c\nend 2000000 2000000 1\n",
            ),
        ],
    )
}

#[test]
fn cases(rt: HostRuntime) -> Result<(), Fail> {
    prints(
        &rt,
        &[
            (
                "AFG 1\nH 0 0\nW 0\nB 9999999999\nC\n",
                "3 W N 37 b\n4 B N 37 b\n5 C N 37 b\nend 0 0 0\n",
            ),
            (
                "AFG 1\nH 0 0\nH 1 1000\nH 10 2000000\nJ 10\nD 10\nD 10\nW 0\nW 2000001\nW 2000000\nB 2000001\nB 500\nL 10\n",
                "5 J 2000000\n6 D 1\n7 D N 36 b\n8 W N 12 b\n9 W N 38 b\n10 W 2000000 0 0 0\n11 B N 41 b\n12 B 500\n13 L N 36 b\n14 C 1\nend 500 500 1\n",
            ),
            (
                "AFG 1\nH 0 0\nH 1 100\nH 10 2000000\nH 11 3000000\nH 12 2000000\nH 13 2000000\nJ 10\nJ 11\nJ 12\nJ 13\nI 100\nD 10\nW 5000000\nB 1000000\nR 11\nL 12\nC\nL 12\n",
                "8 J 2000000\n9 J 2000000\n10 J 2000000\n11 J 2000000\n12 I 100\n13 D 1\n14 W 2000000 25 2999975 0\n15 B 1000000\n16 R 999991 0\n17 L N 36 b\n18 C 1\n19 L 1200031\nend 3800060 3800060 3\n",
            ),
            (
                "AFG 1\nH 0 0\nH 1 1000\nH 10 2000000\nJ 10\nJ 11\nI 101\nL 10\n",
                "5 J 2000000\n6 J N 52 h\n7 I 101\n8 L 2000101\nend 0 0 0\n",
            ),
        ],
    )
}

// A head and then ends of lines up to the size.
fn sized(heap: Global, size: usize) -> Result<Vec<u8>, Fail> {
    let mut bytes = Vec::with_capacity(heap, size)?;
    bytes.extend_from_slice(b"AFG 1\nH 0 0\n")?;
    bytes.resize(size, b'\n')?;
    Ok(bytes)
}

#[test]
fn sizes(rt: HostRuntime) -> Result<(), Fail> {
    let most = sized(rt.alloc(), 65_536)?;
    let out = run(rt.alloc(), most.as_slice())?;
    assert_eq!(rt; out.as_str(), "3 ? N 24 s\nend 0 0 0\n");
    let more = sized(rt.alloc(), 65_537)?;
    let out = run(rt.alloc(), more.as_slice())?;
    assert_eq!(rt; out.as_str(), "1 ? N 19 s\nend 0 0 0\n");
    Ok(())
}

#[test]
fn bytes_of_any_kind(rt: HostRuntime) -> Result<(), Fail> {
    let out = run(rt.alloc(), &[0, 255, 13, 10])?;
    assert_eq!(rt; out.as_str(), "1 ? N 23 s\nend 0 0 0\n");
    let sheet = b"AFG 1\nH 0 0\nP \x00\x09\x0d\xff56789012 1 1 1\nU 10\nJ \xff\n";
    let out = run(rt.alloc(), sheet)?;
    assert_eq!(rt; out.as_str(), "4 U N 13 c\n5 ? N 24 s\nend 0 0 0\n");
    Ok(())
}
