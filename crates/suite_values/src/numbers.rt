//! Numbers as decimal texts.
use io_core::read_number;

#[test]
fn numbers_are_plain_decimal_texts(rt: HostRuntime) {
    let cases = [
        ("0", Some(0)),
        ("7", Some(7)),
        ("18446744073709551615", Some(u64::MAX)),
        ("18446744073709551616", None),
        ("", None),
        ("00", None),
        ("01", None),
        ("+1", None),
        ("-1", None),
        ("1 ", None),
        ("a", None),
    ];
    for (text, number) in cases {
        assert!(rt; read_number(text.as_bytes()) == number, "at {text}");
    }
}
