//! Tests of checking and mounting images.
use crate::answers::{expect, expect_same_of};
use crate::bytes::{front, put_all};
use pv_image_mount::{check, mount};
use pv_model::{ImageFault, Name, Version};
use pv_tree::Tree;
use std::alloc::{AllocError, AllocGlobal, Global};
use std::process::Abort;

// An image of some length with changed bytes, and the expected result of the check.
struct Case {
    name: &'static str,
    length: usize,
    changes: &'static [(usize, &'static [u8])],
    verdict: Result<Version, ImageFault>,
}

// Checks the image of a case. The image has these components among zeros.
fn expect_verdict(rt: &impl Abort, alloc: Global, image: &[(usize, &[u8])], case: &Case) {
    let mut bytes = [0; 2_048];
    put_all(&mut bytes, image);
    put_all(&mut bytes, case.changes);
    let verdict = check(alloc, front(&bytes, case.length));
    expect_same_of(rt, verdict, case.verdict, case.name);
}

// The smallest image, with only a root.
const SMALLEST: &[(usize, &[u8])] = &[(0, b"PVIMAGE1\x02\x00\x01\x00"), (512, &[1])];

const SMALLEST_CASES: &[Case] = &[
    Case {
        name: "no bytes are short",
        length: 0,
        changes: &[],
        verdict: Err(ImageFault::Short),
    },
    Case {
        name: "the smallest image is accepted",
        length: 1_024,
        changes: &[],
        verdict: Ok(Version::V1),
    },
    Case {
        name: "the second version is accepted",
        length: 1_024,
        changes: &[(7, b"2")],
        verdict: Ok(Version::V2),
    },
    Case {
        name: "other magic is named",
        length: 1_024,
        changes: &[(0, b"Q")],
        verdict: Err(ImageFault::Magic),
    },
    Case {
        name: "a missing byte is a size",
        length: 1_023,
        changes: &[],
        verdict: Err(ImageFault::Size),
    },
    Case {
        name: "a free root has no place",
        length: 1_024,
        changes: &[(512, &[0])],
        verdict: Err(ImageFault::Tree(1)),
    },
    Case {
        name: "an unknown kind is named",
        length: 1_024,
        changes: &[(512, &[9])],
        verdict: Err(ImageFault::Inode(1)),
    },
];

#[test]
fn smallest_images_are_judged(rt: HostRuntime) {
    for case in SMALLEST_CASES {
        expect_verdict(&rt, rt.alloc(), SMALLEST, case);
    }
}

// An image with two directories that contain each other and are not reachable from the root.
const LOOPED: &[(usize, &[u8])] = &[
    (0, b"PVIMAGE1\x04\x00\x03\x00"),
    (512, &[1]),
    (544, &[1, 0, 1, 0, 0x40, 0, 0, 0, 2]),
    (576, &[1, 0, 1, 0, 0x40, 0, 0, 0, 3]),
    (1_024, &[3, 0, 1, 0, 0x61]),
    (1_536, &[2, 0, 1, 0, 0x61]),
];

const LOOPED_CASES: &[Case] = &[
    Case {
        name: "a missing byte is a size",
        length: 2_047,
        changes: &[],
        verdict: Err(ImageFault::Size),
    },
    Case {
        name: "a loop is not reached",
        length: 2_048,
        changes: &[],
        verdict: Err(ImageFault::Tree(2)),
    },
    Case {
        name: "blocks are used once",
        length: 2_048,
        changes: &[(584, &[2])],
        verdict: Err(ImageFault::Block(3)),
    },
    Case {
        name: "blocks of inodes are no data",
        length: 2_048,
        changes: &[(552, &[1])],
        verdict: Err(ImageFault::Block(2)),
    },
    Case {
        name: "a size that none has",
        length: 2_048,
        changes: &[(548, &[0x41])],
        verdict: Err(ImageFault::Inode(2)),
    },
    Case {
        name: "sizes come before blocks",
        length: 2_048,
        changes: &[(548, &[0x41]), (584, &[2])],
        verdict: Err(ImageFault::Inode(2)),
    },
    Case {
        name: "slots are for inodes in use",
        length: 2_048,
        changes: &[(1_536, &[4])],
        verdict: Err(ImageFault::Dir(3)),
    },
    Case {
        name: "a name of no bytes",
        length: 2_048,
        changes: &[(1_538, &[0])],
        verdict: Err(ImageFault::Dir(3)),
    },
    Case {
        name: "names come before counts",
        length: 2_048,
        changes: &[(1_538, &[0]), (546, &[2])],
        verdict: Err(ImageFault::Dir(3)),
    },
    Case {
        name: "a file in no entry has no place",
        length: 2_048,
        changes: &[(544, &[2]), (546, &[0]), (580, &[0])],
        verdict: Err(ImageFault::Tree(2)),
    },
];

#[test]
fn looped_images_are_judged(rt: HostRuntime) {
    for case in LOOPED_CASES {
        expect_verdict(&rt, rt.alloc(), LOOPED, case);
    }
}

// An image whose root has three slots, for three files.
const THREE_FILES: &[(usize, &[u8])] = &[
    (0, b"PVIMAGE1\x03\x00\x04\x00"),
    (512, &[1, 0, 0, 0, 0xc0, 0, 0, 0, 2]),
    (544, &[2, 0, 1]),
    (576, &[2, 0, 1]),
    (608, &[2, 0, 1]),
];

// The contents of the three slots, and the entries in the order of their names.
struct Slots {
    name: &'static str,
    slots: &'static [(usize, &'static [u8])],
    entries: &'static [(&'static [u8], u16)],
}

const SLOTS: &[Slots] = &[
    Slots {
        name: "slots in order",
        slots: &[
            (1_024, b"\x02\x00\x01\x00a"),
            (1_088, b"\x03\x00\x01\x00b"),
            (1_152, b"\x04\x00\x01\x00c"),
        ],
        entries: &[(b"a", 2), (b"b", 3), (b"c", 4)],
    },
    Slots {
        name: "the first two slots out of order",
        slots: &[
            (1_024, b"\x02\x00\x01\x00b"),
            (1_088, b"\x03\x00\x01\x00a"),
            (1_152, b"\x04\x00\x01\x00c"),
        ],
        entries: &[(b"a", 3), (b"b", 2), (b"c", 4)],
    },
    Slots {
        name: "the least name in the last slot",
        slots: &[
            (1_024, b"\x02\x00\x01\x00b"),
            (1_088, b"\x03\x00\x01\x00c"),
            (1_152, b"\x04\x00\x01\x00a"),
        ],
        entries: &[(b"a", 4), (b"b", 2), (b"c", 3)],
    },
];

// Checks that the root has exactly these entries, in this order.
fn expect_entries(rt: &impl Abort, tree: &Tree, entries: &[(&[u8], u16)], case: &str) {
    let mut last: Option<Name> = None;
    for &(name, node) in entries {
        assert!(rt; tree.is_directory(1));
        expect_same_of(rt, tree.find(1, name), Some(node), case);
        assert!(rt; tree.is_directory(1));
        last = tree.next_after(1, last.as_ref().map(|last| last.as_slice()));
        expect(
            rt,
            last.as_ref().is_some_and(|last| last.as_slice() == name),
        );
    }
    assert!(rt; tree.is_directory(1));
    assert!(rt;
        tree.next_after(1, last.as_ref().map(|last| last.as_slice()))
            .is_none()
    );
}

#[test]
fn mounted_directories_are_listed_and_searched(rt: HostRuntime) -> Result<(), AllocError> {
    for case in SLOTS {
        let mut bytes = vec![in rt.alloc(); 0; 1_536]?;
        put_all(&mut bytes, THREE_FILES);
        put_all(&mut bytes, case.slots);
        let store = mount(rt.alloc(), bytes).expect(&rt, "it is an image");
        expect_entries(&rt, store.tree(), case.entries, case.name);
    }
    Ok(())
}
