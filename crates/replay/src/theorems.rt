//! What is proved of records that are read in windows.

ghost use Rattle.replay.specs.Laws.{WindowsAgree, OneEnd};

/// Windows one after the other are read as one slice, and the same bytes have one end.
pub fn windows_agree() -> u8
    ensures agree { WindowsAgree }
    ensures once { OneEnd }
{
    0
}
