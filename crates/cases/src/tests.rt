use super::*;

// The first case, reckoned by another program from what the main file of `second` says.
#[test]
fn draws_the_first_case(rt: HostRuntime) {
    let mut x = FIRST_STATE;
    let case = next_case(&mut x);
    assert_eq!(rt; x, 470025759);
    assert_eq!(rt; case.map.len(), 256);
    assert_eq!(rt; case.map.get(98), Some(&0));
    assert_eq!(rt;
        case.dictionary.as_slice(),
        b"WD\x03abbWD\x02abWD\x04aaabWD\x04aaabWD\x04bbbaWD\x01b".as_slice()
    );
    assert_eq!(rt; case.text.as_slice(), b"baaababbaaab".as_slice());
}
