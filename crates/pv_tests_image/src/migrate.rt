//! Tests of migrating images of version 1.
use crate::answers::{expect_equal, expect_same};
use crate::bytes::{expect_components, front, put_all};
use crate::sinks::{sink_of, wide_sink};
use pv_image::{MigratingStop, migrate, write_migrated};
use pv_model::{ImageFault, MigrateFault};
use std::alloc::{AllocError, Global};
use std::process::Abort;

// The contents of an image with 16 blocks and 16 inodes: `/etc` is node 2, `/etc/motd` node 3, and the program `/init`
// node 4.
const MOTD: &[(usize, &[u8])] = &[
    (0, b"PVIMAGE1\x10\x00\x10\x00"),
    (512, b"\x01\x00\x00\x00\x80\x00\x00\x00\x02"),
    (544, b"\x01\x00\x01\x00\x40\x00\x00\x00\x03"),
    (576, b"\x02\x00\x01\x00\x05\x00\x00\x00\x04"),
    (608, b"\x03\x00\x01\x00\x07\x00\x00\x00\x05"),
    (1_024, b"\x02\x00\x03\x00etc"),
    (1_088, b"\x04\x00\x04\x00init"),
    (1_536, b"\x03\x00\x04\x00motd"),
    (2_048, b"hello"),
    (2_560, b"exit 0\n"),
];

// Returns the image with some bytes changed.
fn motd_image(alloc: Global, changes: &[(usize, &[u8])]) -> Result<Vec<u8>, AllocError> {
    let mut bytes = vec![in alloc; 0; 8_192]?;
    put_all(&mut bytes, MOTD);
    put_all(&mut bytes, changes);
    Ok(bytes)
}

// Returns the image of version 2 with these sizes.
fn migrated<R: Abort + AllocGlobal>(
    rt: &R,
    blocks: u32,
    inodes: u32,
) -> Result<Vec<u8>, AllocError> {
    let bytes = motd_image(rt.alloc(), &[])?;
    match migrate(rt.alloc(), &bytes, blocks, inodes) {
        Ok(image) => Ok(image),
        Err(fault) => {
            expect_same(rt, fault, MigrateFault::Memory);
            Err(AllocError)
        }
    }
}

const SMALLEST: &[(usize, &[u8])] = &[
    (0, b"PVIMAGE2\x08\x00\x10\x00"),
    (512, b"\x01\x00\x00\x00\x08\x02\x00\x00"),
    (576, b"\x01\x00\x00\x00\x04\x01\x00\x00"),
    (640, b"\x02\x00\x00\x00\x05\x00\x00\x00"),
    (704, b"\x03\x00\x00\x00\x07\x00\x00\x00"),
    (768, b"\x00"),
];

const GREATEST: &[(usize, &[u8])] = &[(0, b"PVIMAGE2\xff\xff\x00\x10")];

// The requested numbers of blocks and inodes, the length of the resulting image, and some of its bytes.
const MIGRATED: &[(u32, u32, usize, &[(usize, &[u8])])] = &[
    (8, 16, 4_096, SMALLEST),
    (65_535, 4_096, 512 * 65_535, GREATEST),
];

#[test]
fn nodes_keep_their_numbers_in_the_sizes_asked_for(rt: HostRuntime) -> Result<(), AllocError> {
    for &(blocks, inodes, length, components) in MIGRATED {
        let bytes = migrated(&rt, blocks, inodes)?;
        expect_components(&rt, &bytes, length, components);
    }
    Ok(())
}

// Checks that migrating the image to these sizes fails with this error.
fn expect_fault(
    rt: &impl Abort,
    alloc: Global,
    bytes: Vec<u8>,
    sizes: (u32, u32),
    fault: MigrateFault,
) {
    let mut image = wide_sink(alloc);
    let answer = write_migrated(alloc, bytes, sizes.0, sizes.1, &mut image);
    expect_same(rt, answer, Err(MigratingStop::Refused(fault)));
    expect_same(rt, image.bytes.len(), 0);
}

const TOO_SMALL: &[(u32, u32)] = &[
    // Sizes without room for the tree of the image.
    (7, 16),
    (8, 17),
    (87, 15),
    (0, 16),
    (2, 16),
    // Sizes that no image can have.
    (8, 0),
    (65_535, 4_097),
    (65_536, 16),
    (65_544, 16),
    (8, 65_552),
    (u32::MAX, u32::MAX),
];

#[test]
fn sizes_without_room_or_that_no_image_has(rt: HostRuntime) -> Result<(), AllocError> {
    for &sizes in TOO_SMALL {
        let bytes = motd_image(rt.alloc(), &[])?;
        expect_fault(&rt, rt.alloc(), bytes, sizes, MigrateFault::Small);
    }
    Ok(())
}

// Checks that bytes are not an image of version 1, with this error for all sizes.
fn expect_no_image(rt: &impl Abort, alloc: Global, bytes: Vec<u8>, fault: ImageFault) {
    expect_fault(rt, alloc, bytes, (0, 0), MigrateFault::Image(fault));
}

const FAULTS: &[(&[(usize, &[u8])], ImageFault)] = &[
    (&[(576, b"\x09")], ImageFault::Inode(3)),
    (&[(7, b"2"), (512, b"\x09")], ImageFault::Magic),
];

#[test]
fn the_image_is_judged_before_the_sizes(rt: HostRuntime) -> Result<(), AllocError> {
    expect_no_image(&rt, rt.alloc(), Vec::new(rt.alloc()), ImageFault::Short);
    for &(changes, fault) in FAULTS {
        let bytes = motd_image(rt.alloc(), changes)?;
        expect_no_image(&rt, rt.alloc(), bytes, fault);
    }
    Ok(())
}

#[test]
fn a_migrated_image_is_not_migrated_again(rt: HostRuntime) -> Result<(), AllocError> {
    let bytes = migrated(&rt, 8, 16)?;
    let fault = MigrateFault::Image(ImageFault::Magic);
    expect_fault(&rt, rt.alloc(), bytes, (8, 16), fault);
    Ok(())
}

#[test]
fn a_sink_without_room_gets_a_prefix(rt: HostRuntime) -> Result<(), AllocError> {
    let whole = migrated(&rt, 400, 16)?;
    let bytes = motd_image(rt.alloc(), &[])?;
    let mut image = sink_of(rt.alloc(), 100_000, 1_000);
    let answer = write_migrated(rt.alloc(), bytes, 400, 16, &mut image);
    expect_same(&rt, answer, Err(MigratingStop::Write));
    expect_equal(&rt, image.bytes.as_slice(), front(&whole, 100_000));
    Ok(())
}
