// Scripts with all that is told of them, worked out by hand.
#![tactic(auto)]

#[cfg(test)]
mod tests {
    use replaying::output;
    use std::test::Fail;

    // A script, and what is told of it.
    #[derive(Clone, Copy)]
    struct Row {
        script: &'static str,
        told: &'static str,
    }

    const ROWS: [Row; 4] = [
        // no first line, so that nothing is carried out
        Row {
            script: "forget\nforget\n",
            told: "script not well formed at byte 0\n",
        },
        // the calls ahead of a wrong one are carried out, and none behind it
        Row {
            script: "session blank first\nforget\ndecide 01\nforget\n",
            told: "forgot\nscript not well formed at byte 27\n",
        },
        // a text that is cut short
        Row {
            script: "session slotted busiest\ndecide 1\nload 11\np cnf 0 0\n",
            told: "refused 7 at 0\nscript not well formed at byte 33\n",
        },
        // a formula without a clause is true
        Row {
            script: "session slotted busiest\nload 10\np cnf 0 0\ndecide 0\nwrite 10\n",
            told: "loaded 0 0\nverdict 1 splits 0\nwrote 10\np cnf 0 0\n",
        },
    ];

    #[test]
    fn scripts_are_told(rt: HostRuntime) -> Result<(), Fail> {
        for row in &ROWS {
            let told = output(rt.alloc(), row.script.as_bytes())?;
            let script = row.script;
            assert!(rt; told.as_slice() == row.told.as_bytes(), "{script:?}");
        }
        Ok(())
    }
}
