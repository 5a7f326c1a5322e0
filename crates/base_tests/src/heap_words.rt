//! Worked words of each kind.

use crate::compare::{holds, same};
use mark_word::{
    BadMark, HoldForm, MarkForm, OwnerForm, SafeForm, WaitForm, decode, decode_hold, decode_owner,
    decode_safe, decode_wait, encode, encode_hold, encode_owner, encode_safe, encode_wait,
    epoch_of, is_neutral,
};
use std::process::Abort;
use std::test::Fail;

// Words and the marks that they spell.
fn read_marks(rt: &impl Abort) {
    same(
        rt,
        decode(0x7F_FFFF_FF79),
        Ok(MarkForm::Neutral {
            hash: 0x7FFF_FFFF,
            age: 15,
        }),
    );
    same(rt, decode(0), Ok(MarkForm::Inflating));
    same(rt, decode(3), Ok(MarkForm::Marked));
    same(rt, decode(7), Err(BadMark));
    same(rt, decode(2), Err(BadMark));
}

// Marks and the words that spell them.
fn write_marks(rt: &impl Abort) {
    let biased = MarkForm::Biased {
        thread: 0,
        epoch: 3,
        age: 0,
    };
    same(rt, encode(&biased), 1797);
    same(rt, encode(&MarkForm::Anonymous { epoch: 2, age: 0 }), 517);
    let locked = MarkForm::Locked {
        thread: 1,
        place: 63,
    };
    same(rt, encode(&locked), 8696);
    same(rt, encode(&MarkForm::Inflated { monitor: 0 }), 10);
}

#[test]
fn mark_words_are_read_and_written(rt: HostRuntime) {
    read_marks(&rt);
    write_marks(&rt);
    same(&rt, epoch_of(1797), 3);
    same(&rt, epoch_of(517), 2);
    holds(&rt, is_neutral(1) && !is_neutral(7));
}

#[test]
fn owner_words_are_read_and_written(rt: HostRuntime) -> Result<(), Fail> {
    same(&rt, decode_owner(17), Ok(OwnerForm::ByThread { thread: 1 }));
    same(&rt, encode_owner(&OwnerForm::ByThread { thread: 1 }), 17);
    same(
        &rt,
        encode_owner(&OwnerForm::ByRecord {
            thread: 1,
            place: 63,
        }),
        8696,
    );
    Ok(())
}

#[test]
fn waiting_words_are_read_and_written(rt: HostRuntime) -> Result<(), Fail> {
    same(
        &rt,
        encode_wait(&WaitForm::Waiting {
            object: 0,
            stamp: 2,
        }),
        524_290,
    );
    same(
        &rt,
        decode_wait(524_290),
        Ok(WaitForm::Waiting {
            object: 0,
            stamp: 2,
        }),
    );
    Ok(())
}

#[test]
fn hold_words_are_read_and_written(rt: HostRuntime) -> Result<(), Fail> {
    same(
        &rt,
        decode_hold(129),
        Ok(HoldForm::Holds {
            object: 0,
            depth: 1,
        }),
    );
    same(
        &rt,
        encode_hold(&HoldForm::Holds {
            object: 0,
            depth: 1,
        }),
        129,
    );
    same(&rt, decode_hold(128), Err(BadMark));
    same(&rt, decode_hold(193), Err(BadMark));
    Ok(())
}

#[test]
fn safepoint_words_are_read_and_written(rt: HostRuntime) -> Result<(), Fail> {
    let form = SafeForm {
        running: 1,
        requester: Some(1),
        halted: false,
    };
    same(&rt, decode_safe(8_589_934_593), Ok(form));
    same(&rt, encode_safe(&form), 8_589_934_593);
    let halt = SafeForm {
        running: 0,
        requester: None,
        halted: true,
    };
    same(&rt, decode_safe(1_099_511_627_776), Ok(halt));
    same(&rt, encode_safe(&halt), 1_099_511_627_776);
    Ok(())
}
