//! Tests of parsing lines, words, texts and arguments, valid and invalid ones.
use crate::answers::{expect, expect_equal, expect_same};
use pv_model::{Mode, Operand, Origin, Whence};
use pv_text::arguments::{
    one_text, origin_text_and_flags, text_and_size, two_operands_and_whence, two_sizes,
    two_texts_or_null,
};
use pv_text::components::split_component;
use pv_text::lines::{count_lines, first_of, split_line, split_word};
use pv_text::texts::{text, text_or_null};
use pv_text::words::{decimal, flags, number, operand, origin, register};
use std::alloc::{AllocError, Global};
use std::process::Abort;

// Returns a text in quotation marks that repeats one byte.
fn quoted(alloc: Global, byte: &[u8], count: u32) -> Result<Vec<u8>, AllocError> {
    let mut all = b"\"".to_vec(alloc)?;
    for _ in 0..count {
        all.extend_from_slice(byte)?;
    }
    all.push(b'"')?;
    Ok(all)
}

// Checks that a text starts with this line, and the text after it.
fn expect_line(rt: &impl Abort, text: &[u8], line: &[u8], following: &[u8]) {
    let (first, rest) = split_line(text).expect(rt, "a line");
    expect_equal(rt, first, line);
    expect_equal(rt, rest, following);
}

fn expect_no_line(rt: &impl Abort, text: &[u8]) {
    assert!(rt; split_line(text).is_none());
}

// Checks the number of lines of a text, which is limited.
fn expect_count(rt: &impl Abort, text: &[u8], limit: u16, count: u16) {
    expect_same(rt, count_lines(text, limit), count);
}

#[test]
fn lines_with_their_ends_or_without(rt: HostRuntime) {
    expect_line(&rt, b"a b\n\nc", b"a b", b"\nc");
    expect_line(&rt, b"\nc", b"", b"c");
    expect_line(&rt, b"c", b"c", b"");
    expect_no_line(&rt, b"");
    expect_count(&rt, b"a b\n\nc", 9, 3);
    expect_count(&rt, b"a b\n\nc\n", 2, 2);
}

// Checks that a line starts with this word, and the bytes after it.
fn expect_word(rt: &impl Abort, line: &[u8], word: &[u8], following: &[u8]) {
    let (first, rest) = split_word(line);
    expect_equal(rt, first, word);
    expect_equal(rt, rest, following);
}

// Checks the index of the first occurrence of a byte.
fn expect_first(rt: &impl Abort, bytes: &[u8], byte: u8, place: usize) {
    expect_same(rt, first_of(bytes, byte), place);
}

#[test]
fn words_with_what_is_after(rt: HostRuntime) {
    expect_word(&rt, b"a b c", b"a", b" b c");
    expect_first(&rt, b"abc", b'c', 2);
    expect_first(&rt, b"abc", b'd', 3);
}

// Checks that a path starts with this component, and the bytes after its slash.
fn expect_component(rt: &impl Abort, path: &[u8], component: &[u8], following: &[u8]) {
    let (first, rest) = split_component(path);
    expect_equal(rt, first, component);
    expect_equal(rt, rest.expect(rt, "a slash"), following);
}

// Checks that a path is one component.
fn expect_one_component(rt: &impl Abort, path: &[u8]) {
    let (first, rest) = split_component(path);
    expect_equal(rt, first, path);
    assert!(rt; rest.is_none());
}

#[test]
fn components_of_a_path(rt: HostRuntime) {
    expect_component(&rt, b"a//b", b"a", b"/b");
    expect_component(&rt, b"/", b"", b"");
    expect_one_component(&rt, b"b");
}

// Checks that a word is parsed as this number, or is not a number.
fn expect_decimal(rt: &impl Abort, digits: &[u8], wanted: Option<u32>) {
    expect_same(rt, decimal(digits), wanted);
}

// Checks that bytes start with this number, and the bytes after it.
fn expect_number(rt: &impl Abort, bytes: &[u8], wanted: i32, following: &[u8]) {
    let (value, rest) = number(bytes).expect(rt, "a number");
    expect_same(rt, value, wanted);
    expect_equal(rt, rest, following);
}

fn expect_no_number(rt: &impl Abort, bytes: &[u8]) {
    assert!(rt; number(bytes).is_none());
}

#[test]
fn words_that_are_numbers(rt: HostRuntime) {
    expect_decimal(&rt, b"0", Some(0));
    expect_decimal(&rt, b"00", None);
    expect_decimal(&rt, b"", None);
    expect_decimal(&rt, b"18446744073709551616", Some(4_294_967_295));
    expect_number(&rt, b"-2147483648 x", -2_147_483_648, b" x");
    expect_no_number(&rt, b"-0");
    expect_no_number(&rt, b"2147483648");
}

#[test]
fn words_that_are_operands(rt: HostRuntime) {
    assert!(rt; register(b"r8").is_none());
    assert!(rt; matches!(operand(b"7"), Some((Operand::Number(7), []))));
    assert!(rt; matches!(operand(b"r7"), Some((Operand::Register(_), []))));
}

#[test]
fn starts_of_an_openat(rt: HostRuntime) {
    assert!(rt;
        matches!(
            origin(b"cwd \"a\""),
            Some((Origin::WorkingDirectory, [b' ', ..]))
        )
    );
    assert!(rt;
        matches!(
            origin(b"3"),
            Some((Origin::Descriptor(Operand::Number(3)), []))
        )
    );
    assert!(rt; origin(b"cwdr").is_none());
}

#[test]
fn arguments_of_an_openat(rt: HostRuntime) {
    let read = origin_text_and_flags(b" cwd \"a\" w+create");
    let (start, path, flags) = read.expect(&rt, "a start, a path and flags");
    expect_same(&rt, start, Origin::WorkingDirectory);
    expect_equal(&rt, path.as_slice(), b"a");
    expect_same(&rt, flags.mode, Mode::Write);
    expect(&rt, flags.create && !flags.append);
}

#[test]
fn arguments_that_an_openat_lacks(rt: HostRuntime) {
    assert!(rt;
        matches!(
            origin_text_and_flags(b" r1 \"a\" r"),
            Some((Origin::Descriptor(_), _, _))
        )
    );
    assert!(rt; origin_text_and_flags(b" \"a\" r").is_none());
    assert!(rt; origin_text_and_flags(b" cwd \"a\"").is_none());
}

#[test]
fn texts_with_escapes(rt: HostRuntime) {
    let (read, rest) = text(b"\"a\\x22\\xffb~\" b").expect(&rt, "a text");
    expect_equal(&rt, read.as_slice(), b"a\"\xffb~");
    expect_equal(&rt, rest, b" b");
}

// Checks that bytes do not start with a text.
fn expect_no_text(rt: &impl Abort, bytes: &[u8]) {
    assert!(rt; text(bytes).is_none());
}

#[test]
fn bytes_that_are_no_texts(rt: HostRuntime) {
    expect_no_text(&rt, b"\"a");
    expect_no_text(&rt, b"\"\\x00\"");
    expect_no_text(&rt, b"\"\\xFF\"");
    expect_no_text(&rt, b"\"\t\"");
    assert!(rt; matches!(text_or_null(b"null"), Some((None, []))));
    assert!(rt; text_or_null(b"nul").is_none());
}

// Checks that bytes are a text of this length.
fn expect_text_of(rt: &impl Abort, bytes: &[u8], length: usize) {
    let (read, _) = text(bytes).expect(rt, "the longest text");
    expect_same(rt, read.len(), length);
}

#[test]
fn texts_up_to_their_limit(rt: HostRuntime) {
    for byte in [b"\\x61".as_slice(), b"a".as_slice()] {
        let longest = quoted(rt.alloc(), byte, 1_100).expect(&rt, "memory");
        expect_text_of(&rt, &longest, 1_100);
        let longer = quoted(rt.alloc(), byte, 1_101).expect(&rt, "memory");
        expect_no_text(&rt, &longer);
    }
}

// Checks that bytes are not a space followed by a text.
fn expect_not_one_text(rt: &impl Abort, bytes: &[u8]) {
    assert!(rt; one_text(bytes).is_none());
}

fn expect_one_text(rt: &impl Abort, bytes: &[u8], wanted: &[u8]) {
    let read = one_text(bytes).expect(rt, "a text");
    expect_equal(rt, read.as_slice(), wanted);
}

#[test]
fn texts_after_one_space(rt: HostRuntime) {
    expect_one_text(&rt, b" \"a\"", b"a");
    expect_not_one_text(&rt, b"\"a\"");
    expect_not_one_text(&rt, b" \"a\" ");
    expect_not_one_text(&rt, b"  \"a\"");
    assert!(rt; matches!(two_texts_or_null(b" null \"b\""), Some((None, Some(_)))));
}

fn expect_sizes(rt: &impl Abort, bytes: &[u8], sizes: Option<(u32, u32)>) {
    expect_same(rt, two_sizes(bytes), sizes);
}

fn expect_text_and_size(rt: &impl Abort, bytes: &[u8], path: &[u8], size: u32) {
    let (read, lines) = text_and_size(bytes).expect(rt, "a text and a size");
    expect_equal(rt, read.as_slice(), path);
    expect_same(rt, lines, size);
}

#[test]
fn sizes_after_one_space(rt: HostRuntime) {
    expect_sizes(&rt, b" 16 4294967296", Some((16, 4_294_967_295)));
    expect_sizes(&rt, b" 16", None);
    expect_text_and_size(&rt, b" \"/p\" 12", b"/p", 12);
}

#[test]
fn arguments_after_one_space_each(rt: HostRuntime) {
    assert!(rt;
        matches!(
            two_operands_and_whence(b" 0 -1 end"),
            Some((Operand::Number(0), Operand::Number(-1), Whence::End))
        )
    );
    assert!(rt; flags(b"r+trunc+append").is_none());
}
