// Turnouts written by `profiles::writing`, which names each by its byte in the list. The bytes expected were worked out by hand.
use crate::Turnout;
use profiles::in_list::InList;
use profiles::writing;
use profiles::writing::Entry;
use turnouts::TURNOUT_BYTES;

type Turnouts = InList<TURNOUT_BYTES, Turnout>;

// A turnout of code 10 with distance 1000 and release distance 300, two without a limit, and one of a code that is not allowed.
const LIMITED: [u8; 5] = [10, 3, 232, 1, 44];

const FREE: [u8; 10] = [31, 0, 0, 0, 0, 31, 0, 0, 0, 0];

const RESERVED: [u8; 5] = [25, 0, 0, 0, 0];

#[test]
fn writes_and_refuses(rt: HostRuntime) {
    for (list, room, answer, entries, bytes, put) in [
        (&LIMITED[..], 7, 0, 1, 6, [64, 202, 129, 244, 9, 96, 170]),
        (&FREE[..], 3, 0, 2, 3, [64, 119, 254, 170, 170, 170, 170]),
        (&LIMITED[..], 5, 1, 0, 0, [170; 7]),
        (&LIMITED[1..], 7, 3, 0, 0, [170; 7]),
        (&[0; 20][..], 7, 3, 0, 0, [170; 7]),
        (&RESERVED[..], 7, 4, 0, 0, [170; 7]),
    ] {
        let mut out = [170; 7];
        // `min`, since the check does not know what stands in the table
        let room: usize = room;
        let written = writing::write::<Turnouts>(list, &mut out[..room.min(7)]);
        assert_eq!(rt; written.answer, answer);
        assert_eq!(rt; written.entries, entries);
        assert_eq!(rt; written.bytes, bytes);
        assert_eq!(rt; out, put);
    }
}

#[test]
fn goes_by_what_a_list_has(rt: HostRuntime) {
    let mut out = [170; 7];
    assert!(rt; Turnouts::judge(&LIMITED, 0).is_ok());
    assert!(rt; Turnouts::judge(&RESERVED, 0).is_err());
    assert!(rt;
        Turnouts::judge(&RESERVED, 1).is_ok(),
        "no turnout is there"
    );
    assert_eq!(rt; Turnouts::size(&LIMITED, 1), 6);
    assert_eq!(rt; Turnouts::size(&LIMITED, 2), 0, "it has one");
    assert_eq!(rt; Turnouts::size(&[31; 20], 4), 0, "a sub-packet has three");
    assert_eq!(rt; Turnouts::put(&mut out, 13, &LIMITED, 0), 45);
    assert_eq!(rt; out, [170, 170, 129, 244, 9, 98, 170]);
    assert_eq!(rt;
        Turnouts::put(&mut out, 13, &LIMITED, 1),
        13,
        "no turnout is there"
    );
    assert_eq!(rt; Turnouts::begin(&mut out, &LIMITED, 2), 0);
    assert_eq!(rt; out, [170, 170, 129, 244, 9, 98, 170]);
    assert_eq!(rt; Turnouts::begin(&mut out, &LIMITED, 1), 6);
    assert_eq!(rt; out, [64, 202, 129, 244, 9, 0, 170]);
}

#[test]
fn puts_up_to_bit_2000(rt: HostRuntime) {
    let mut out = [0; 256];
    assert_eq!(rt; Turnouts::put(&mut out, 2001, &LIMITED, 0), 2001);
    assert_eq!(rt; out, [0; 256]);
    assert_eq!(rt; Turnouts::put(&mut out, 2000, &LIMITED, 0), 2032);
    assert_eq!(rt; &out[250..], [80, 62, 129, 44, 0, 0].as_slice());
}
