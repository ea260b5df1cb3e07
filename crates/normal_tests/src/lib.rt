// Texts written in the writer's form, byte by byte, with what becomes of the whole buffer. The expected bytes are worked out by hand.
#![tactic(auto)]

#[cfg(test)]
mod tests {
    use normal::{Unwritten, normalized};
    use std::fmt::InlineText;
    use std::process::Abort;

    // A text, and the buffer of 40 dots after it was written there with this length.
    #[derive(Clone, Copy)]
    struct Row {
        text: &'static str,
        len: usize,
        buffer: &'static str,
    }

    const ROWS: [Row; 4] = [
        // the lines of 1 and 2 become one, 3 goes ahead of 1 and 2 as in the prefix, and (2 3 3) and (3 2) are one clause
        Row {
            text: "p cnf 3 3\ne 3 0\na 1 0\na 2 0\n-1 3 0\n2 3 3 0 3 2 0\n",
            len: 37,
            buffer: "p cnf 3 2\ne 3 0\na 1 2 0\n3 -1 0\n3 2 0\n...",
        },
        // written again, it is the same
        Row {
            text: "p cnf 3 2\ne 3 0\na 1 2 0\n3 -1 0\n3 2 0\n",
            len: 37,
            buffer: "p cnf 3 2\ne 3 0\na 1 2 0\n3 -1 0\n3 2 0\n...",
        },
        // the empty clause is the last
        Row {
            text: "p cnf 1 2\ne 1 0\n0 1 0\n",
            len: 22,
            buffer: "p cnf 1 2\ne 1 0\n1 0\n0\n..................",
        },
        Row {
            text: "p cnf 1 2\ne 1 0\n1 0\n0\n",
            len: 22,
            buffer: "p cnf 1 2\ne 1 0\n1 0\n0\n..................",
        },
    ];

    fn expect_written(rt: &impl Abort, row: &Row) {
        let text = row.text;
        let mut buffer = [b'.'; 40];
        let written = normalized(text.as_bytes(), &mut buffer);
        assert_eq!(rt; written, Ok(row.len), "{text:?}");
        assert_eq!(rt; &buffer[..], row.buffer.as_bytes(), "{text:?}");
    }

    #[test]
    fn texts_are_written(rt: HostRuntime) {
        for row in &ROWS {
            expect_written(&rt, row);
        }
    }

    // The text of 37 bytes does not fit into 36, which stay as they are.
    #[test]
    fn short_buffer_is_refused(rt: HostRuntime) {
        let mut buffer = [b'.'; 36];
        let written = normalized(b"p cnf 3 2\ne 3 0\na 1 2 0\n3 -1 0\n3 2 0\n", &mut buffer);
        assert_eq!(rt; written, Err(Unwritten::TooShort(37)));
        assert_eq!(rt;
            &buffer[..],
            b"....................................".as_slice()
        );
    }

    // The variable 2 is not bound: the reader's refusal, as it is told, and the buffer as it was.
    #[test]
    fn unread_text_is_refused(rt: HostRuntime) {
        let mut buffer = [b'.'; 4];
        match normalized(b"p cnf 2 1\ne 1 0\n2 0\n", &mut buffer) {
            Ok(_) => panic!(rt; "the text is read"),
            Err(unwritten) => {
                assert_eq!(rt; InlineText::<16>::of(unwritten).as_str(), "refused 5 at 16");
                assert_eq!(rt; &buffer[..], b"....".as_slice());
            }
        }
    }
}
