use super::limit::Limited;
use super::*;
use crate::fakes::{Drips, NEVER};
use NextLine::{End, Fault, Long, NotAscii, Text};
use std::io;

/// Whether this line comes first, where one is named, and then these.
fn come<R: Read + Drop>(
    lines: &mut LineReader<R>,
    first: Option<NextLine>,
    others: &[NextLine],
) -> bool {
    if let Some(first) = first
        && lines.next() != first
    {
        return false;
    }
    for line in others {
        if lines.next() != *line {
            return false;
        }
    }
    true
}

/// Whether the reader gives this line first, where one is named, and then these.
fn gives<R: Read + Drop>(
    alloc: Global,
    reader: R,
    first: Option<NextLine>,
    others: &[NextLine],
) -> bool {
    match LineReader::make(alloc, reader) {
        Ok(mut lines) => come(&mut lines, first, others),
        Err(_) => false,
    }
}

/// Is interrupted before each call of another reader.
#[derive(Drop)]
struct Interrupted<R> {
    inner: R,
    is_due: bool,
}

impl<R: Read> Read for Interrupted<R> {
    ghost remaining = { λ r. R.remaining r.inner };

    fn read(&mut self, buf: &mut [u8]) -> io::Result<usize> {
        self.is_due = !self.is_due;
        if !self.is_due {
            return Err(io::Error::from(ErrorKind::Interrupted));
        }
        self.inner.read(buf)
    }
}

/// Whether an input gives the lines as a whole, and one byte a call, each call interrupted once.
fn gives_both_ways(
    alloc: Global,
    input: &[u8],
    first: Option<NextLine>,
    others: &[NextLine],
) -> bool {
    let inner = Drips {
        rest: input,
        before_fault: NEVER,
    };
    gives(alloc, input, first, others)
        && gives(
            alloc,
            Interrupted {
                inner,
                is_due: true,
            },
            first,
            others,
        )
}

/// Inputs and their lines. The end stays.
static INPUTS: [(&[u8], &[NextLine]); 11] = [
    (b"", &[End, End]),
    (b"\n", &[Text(b""), End, End]),
    (b"a b\n\nc\n", &[Text(b"a b"), Text(b""), Text(b"c"), End]),
    (b"a\nb", &[Text(b"a"), Text(b"b"), End, End]),
    (b"a\r\nb\r\n", &[Text(b"a"), Text(b"b"), End]),
    (b"\r\n", &[Text(b""), End]),
    (b"a\r\r\nb", &[NotAscii, Text(b"b"), End]),
    (b"a\rb\n", &[NotAscii, End]),
    (b"a\n\r", &[Text(b"a"), NotAscii, End]),
    (
        b"\x00\n\t\n\x1f\n \n",
        &[NotAscii, NotAscii, NotAscii, Text(b" "), End],
    ),
    (b"~\n\x7f\na\xc8\n", &[Text(b"~"), NotAscii, NotAscii, End]),
];

/// How many bytes stand before these, what the line is, unless it is a text, and what follows.
static ROOMS: [(usize, &[u8], Option<NextLine>, &[NextLine]); 12] = [
    (4096, b"\nb", None, &[Text(b"b"), End]),
    (4096, b"\r\nb", None, &[Text(b"b"), End]),
    (4097, b"\nb", Some(Long), &[Text(b"b"), End]),
    (4097, b"\r\nb", Some(Long), &[Text(b"b"), End]),
    (4096, b"\r\r\nb", Some(Long), &[Text(b"b"), End]),
    (4096, b"\t\nb", Some(Long), &[Text(b"b"), End]),
    (4095, b"\t\nb", Some(NotAscii), &[Text(b"b"), End]),
    (9000, b"\xc8\nb", Some(Long), &[Text(b"b"), End]),
    (4096, b"", None, &[End]),
    (4097, b"", Some(Long), &[End]),
    (4096, b"\r", Some(Long), &[End]),
    (4095, b"\r", Some(NotAscii), &[End]),
];

/// Whether so many bytes, and these behind them, are such a line, and these follow. A line of so many bytes is a text.
fn is_roomy(
    alloc: Global,
    count: usize,
    end: &[u8],
    first: Option<NextLine>,
    others: &[NextLine],
) -> Result<bool, AllocError> {
    let text = vec![in alloc; b'x'; count]?;
    let mut input = Vec::from_slice(alloc, &text)?;
    input.extend_from_slice(end)?;
    let first = first.unwrap_or(Text(&text));
    Ok(gives_both_ways(alloc, &input, Some(first), others))
}

#[test]
fn cuts_an_input_into_lines(rt: HostRuntime) {
    for (input, lines) in &INPUTS {
        assert!(rt; gives_both_ways(rt.alloc(), *input, None, *lines));
    }
    for (count, end, first, others) in &ROOMS {
        assert!(rt; is_roomy(rt.alloc(), *count, *end, *first, *others) == Ok(true));
    }
}

/// How many calls come before the one that fails, and the lines that are then given of `a` and `b`. Each call fails in turn,
/// the one at the end too; the lines that came whole are given, and the fault stays.
static FAULTS: [(u64, &[NextLine]); 6] = [
    (0, &[Fault, Fault]),
    (1, &[Fault, Fault]),
    (2, &[Text(b"a"), Fault, Fault]),
    (3, &[Text(b"a"), Fault, Fault]),
    (4, &[Text(b"a"), Text(b"b"), Fault, Fault]),
    (5, &[Text(b"a"), Text(b"b"), End, End]),
];

#[test]
fn stays_at_a_fault(rt: HostRuntime) {
    for (before_fault, lines) in &FAULTS {
        let reader = Drips {
            rest: b"a\nb\n",
            before_fault: *before_fault,
        };
        assert!(rt; gives(rt.alloc(), reader, None, *lines));
    }
}

#[test]
fn counts_each_call_of_read(rt: HostRuntime) {
    let inner = Drips {
        rest: b"abc",
        before_fault: 1,
    };
    let mut limited = Limited { inner, left: 3 };
    let mut one = [0u8; 1];
    for wanted in [true, false, true, false, false] {
        assert!(rt; limited.read(&mut one).is_ok() == wanted);
    }
    assert!(rt; one[0] == b'b');
}
