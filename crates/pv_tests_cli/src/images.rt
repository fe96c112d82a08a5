//! The first example: its manifest, its image, its listing and its trace.
use pv_cli_host::run::make_image;
use pv_streams::{Gathered, SOURCE_BYTES};
use std::process::Abort;

pub(crate) const MOTD: &[u8] =
    b"image 16 16\ndir \"/etc\"\nbytes \"/etc/motd\" \"hello\"\nexec \"/init\" 5\npledge \"stdio rpath\" null\nopen \"/etc/motd\" r\nread r0 100\nclose 0\nexit 0\n";

pub(crate) const MOTD_LISTING: &[u8] =
    b"d 1 2 \"/\"\nd 2 1 \"/etc\"\nf 3 5 \"/etc/motd\"\nx 4 72 \"/init\"\n";

pub(crate) const MOTD_TRACE: &[u8] =
    b"    1 CALL  pledge(\"stdio rpath\", null)\n    1 RET   pledge 0\n    1 CALL  open(\"/etc/motd\", r)\n    1 NAMI  \"/etc/motd\"\n    1 RET   open 0\n    1 CALL  read(0, 100)\n    1 GIO   read 5 68656c6c6f\n    1 RET   read 5\n    1 CALL  close(0)\n    1 RET   close 0\n    1 CALL  exit(0)\n";

// Returns the image of a manifest.
pub(crate) fn made(rt: &(impl Abort + AllocGlobal), manifest: &[u8]) -> Gathered {
    let mut image = Gathered::new(rt.alloc());
    assert!(rt; manifest.len() <= SOURCE_BYTES);
    let answer = make_image(rt.alloc(), manifest, &mut image);
    assert!(rt; answer.is_ok());
    image
}
