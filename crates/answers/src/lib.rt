//! The text of answers.

#![tactic(auto)]

mod text;
mod writer;

pub use writer::{print, put_claim, put_columns, put_number, put_text, put_word};

#[cfg(test)]
mod tests {
    use super::*;
    use change::Refusal;
    use service::Answer;
    use stage::Stage;
    use std::test::Fail;
    use table::Row;

    #[test]
    fn answers(rt: HostRuntime) -> Result<(), Fail> {
        let heap = rt.alloc();
        let mut out = Vec::new(heap);
        let row = Row {
            columns: [0, 1, 22, 333, 4444, 5, 6, 4294967295],
        };
        print(&mut out, &Answer::Row(row))?;
        print(&mut out, &Answer::Keys(vec![in heap; 0, 4095]?))?;
        print(&mut out, &Answer::Refused(Refusal::NoRow))?;
        assert_eq!(rt;
            out.as_slice(),
            b"row 0 1 22 333 4444 5 6 4294967295
keys 0 4095
refused 9 there is no such row
"
                .as_slice()
        );
        Ok(())
    }

    #[test]
    fn parts(rt: HostRuntime) -> Result<(), Fail> {
        let mut out = Vec::new(rt.alloc());
        put_text(&mut out, b"1 up")?;
        put_word(&mut out, 2)?;
        put_claim(
            &mut out,
            7,
            &[Stage::Absent, Stage::Public, Stage::DeleteOnly],
        )?;
        put_columns(&mut out, &[3, 4])?;
        put_number(&mut out, u64::MAX)?;
        assert_eq!(rt;
            out.as_slice(),
            b"1 up 2 7 1=3 2=1 3 418446744073709551615".as_slice()
        );
        Ok(())
    }
}
