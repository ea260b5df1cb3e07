// Scripts with their calls, and scripts that are spelled wrong with the place where they stop. All is worked out by hand.
#![tactic(auto)]

#[cfg(test)]
mod tests {
    use script::{Call, ChooserKind, Make, MemoKind, Space, read_call, read_make, read_script};
    use std::process::Abort;
    use std::test::Fail;

    // A script with the number of its calls and the place where it stops.
    #[derive(Clone, Copy)]
    struct Row {
        text: &'static str,
        calls: usize,
        stopped: usize,
    }

    const ROWS: [Row; 15] = [
        // only the first line
        Row {
            text: "session blank first\n",
            calls: 0,
            stopped: 20,
        },
        // the text of a load is any text, a call among them, and the next line follows directly
        Row {
            text: "session keeping busiest\nload 8\nforget\n\nforget\ndecide 0\n",
            calls: 3,
            stopped: 55,
        },
        // a load of nothing
        Row {
            text: "session slotted first\nload 0\nload 0\nwrite 0\n",
            calls: 3,
            stopped: 44,
        },
        // the greatest numbers
        Row {
            text: "session blank busiest\ndecide 4294967295\nwrite 65536\n",
            calls: 2,
            stopped: 52,
        },
        // one more is too large
        Row {
            text: "session blank first\ndecide 4294967296\n",
            calls: 0,
            stopped: 20,
        },
        Row {
            text: "session blank first\nforget\nwrite 65537\n",
            calls: 1,
            stopped: 27,
        },
        // a text that ends too soon
        Row {
            text: "session blank first\nload 5\nfour",
            calls: 0,
            stopped: 20,
        },
        // a number that no text is as long as
        Row {
            text: "session blank first\nload 18446744073709551616\n",
            calls: 0,
            stopped: 20,
        },
        // a line without an end
        Row {
            text: "session blank first\nforget\nforget",
            calls: 1,
            stopped: 27,
        },
        // needless zeros and spaces, signs, other letters, blank lines
        Row {
            text: "session blank first\ndecide 007\n",
            calls: 0,
            stopped: 20,
        },
        Row {
            text: "session blank first\nforget \nforget\n",
            calls: 0,
            stopped: 20,
        },
        Row {
            text: "session blank first\nwrite +1\n",
            calls: 0,
            stopped: 20,
        },
        Row {
            text: "session blank first\nforget\nFORGET\n",
            calls: 1,
            stopped: 27,
        },
        Row {
            text: "session blank first\nforget\n\nforget\n",
            calls: 1,
            stopped: 27,
        },
        Row {
            text: "session blank first\nwrite\n",
            calls: 0,
            stopped: 20,
        },
    ];

    // Texts with no first line.
    const UNMADE: [&str; 7] = [
        "",
        "session blank first",
        "session first blank\n",
        "session  blank first\n",
        "session blank\n",
        "session blank first \nforget\n",
        "forget\nsession blank first\n",
    ];

    #[test]
    fn scripts_stop_where_they_go_wrong(rt: HostRuntime) -> Result<(), Fail> {
        for row in &ROWS {
            let text = row.text;
            let script = read_script(rt.alloc(), text.as_bytes())?;
            assert!(rt; script.make.is_some(), "{text:?}");
            assert_eq!(rt; script.calls.len(), row.calls, "{text:?}");
            assert_eq!(rt; script.stopped, row.stopped, "{text:?}");
        }
        Ok(())
    }

    #[test]
    fn no_script_without_its_first_line(rt: HostRuntime) -> Result<(), Fail> {
        for text in &UNMADE {
            let script = read_script(rt.alloc(), text.as_bytes())?;
            assert!(rt; script.make.is_none(), "{text:?}");
            assert_eq!(rt; script.calls.len(), 0);
            assert_eq!(rt; script.stopped, 0);
        }
        Ok(())
    }

    #[test]
    fn makes_are_told_apart(rt: HostRuntime) {
        let memo = MemoKind::Slotted;
        let chooser = ChooserKind::Busiest;
        assert_eq!(rt;
            read_make(b"session slotted busiest\nforget\n"),
            Some((Make { memo, chooser }, 24))
        );
        let memo = MemoKind::Keeping;
        let chooser = ChooserKind::First;
        assert_eq!(rt;
            read_make(b"session keeping first\n"),
            Some((Make { memo, chooser }, 22))
        );
    }

    const CALLS: &str = "load 3\np\n\ndecide 12\nwrite 100\nforget\n";

    fn expect_call(rt: &impl Abort, at: usize, expected: Option<(Call, usize)>) {
        assert_eq!(rt; read_call(CALLS.as_bytes(), at), expected, "at {at}");
    }

    #[test]
    fn calls_are_told_apart(rt: HostRuntime) -> Result<(), Fail> {
        let space = Space::try_from(100)?;
        expect_call(&rt, 0, Some((Call::Load(b"p\n\n"), 10)));
        expect_call(&rt, 10, Some((Call::Decide(12), 20)));
        expect_call(&rt, 20, Some((Call::Write(space), 30)));
        expect_call(&rt, 30, Some((Call::Forget, 37)));
        Ok(())
    }

    #[test]
    fn no_call_begins_elsewhere(rt: HostRuntime) {
        assert!(rt; read_call(CALLS.as_bytes(), 1).is_none());
        assert!(rt; read_call(CALLS.as_bytes(), 37).is_none());
        assert!(rt; read_call(CALLS.as_bytes(), 38).is_none());
    }

    #[test]
    fn spaces_have_a_bound(rt: HostRuntime) -> Result<(), Fail> {
        assert_eq!(rt; Space::try_from(65536)?.bytes(), 65536);
        assert_eq!(rt; Space::try_from(65535)?.bytes(), 65535);
        assert!(rt; Space::try_from(65537).is_err());
        Ok(())
    }
}
