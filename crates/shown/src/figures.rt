// Numbers and bytes as they are shown. A write that fails is let go, as in text::print.
use std::io::Stdout;
use text::print::text;

// A name and a number behind it, as a line: `steps 3`, where the name is `steps `.
pub fn line(out: Stdout, name: &[u8], n: u64) {
    text(out, name);
    let _ = println!(out; "{n}");
}

// The stride of a code from 0 to 3.
pub fn stride_text(code: usize) -> &'static str {
    match code {
        0 => "0x10",
        1 => "0x20",
        2 => "0x40",
        _ => "0x80",
    }
}

// The same, written.
pub fn stride(out: Stdout, code: usize) {
    let _ = print!(out; "{}", stride_text(code));
}

// An access of the store by its first address: `row 0x0050 stride 0x20 `, where the name is `row `.
pub fn access(out: Stdout, name: &[u8], address: usize, code: usize) {
    text(out, name);
    let _ = print!(out; "0x{address:04x} stride {} ", stride_text(code));
}

fn each(out: Stdout, b: &[u8]) {
    let mut space = "";
    for x in b {
        let _ = print!(out; "{space}{x:02x}");
        space = " ";
    }
}

// Two digits each, with one space between; `all` and the byte where sixteen are all the same.
pub fn bytes(out: Stdout, b: &[u8]) {
    match b {
        [first, rest @ ..] if rest.len() == 15 && rest.iter().all(|x| x == first) => {
            let _ = print!(out; "all {first:02x}");
        }
        _ => each(out, b),
    }
}

// `OLD -> NEW` and a line feed.
pub fn bytes_change(out: Stdout, old: &[u8], new: &[u8]) {
    bytes(out, old);
    text(out, b" -> ");
    bytes(out, new);
    text(out, b"\n");
}
