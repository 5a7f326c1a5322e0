//! Numbers that are lent. A table may answer that memory is wanting, whatever its body does, so a test fails where it does.
ghost use Rattle.std.specs.Prelude.{◌≡◌, ◌≤◌};

use lending::{LendRule, Lending, Loan};
use std::alloc::AllocError;
use std::marker::Model;
use std::sync::Arc;
use std::test::Fail;

// The least number that may lie in a table.
#[derive(Drop)]
struct Least {
    number: u64,
}

impl Model for Least {
    ghost use Rattle.std.specs.Prelude.{ℕ};

    ghost Value = { ℕ };

    ghost view = { λ l. l.number };
}

struct AtLeast;

impl LendRule<u64, Least> for AtLeast {
    ghost may_lie = { λ key i y. key ≤ y };
}

type Numbers = Lending<u64, Least, AtLeast>;

// What threads share.
#[derive(Drop)]
struct Room {
    least: Least,
    numbers: Numbers,
    ghost keyed: { numbers.table.shared.key ≡ least },
}

// A number of a room, in the hand of one thread.
#[derive(Drop)]
struct Guest {
    room: Arc<Room>,
    loan: Loan<u64, Least>,
    ghost of_the_room: { loan.seat.table_id ≡ room.value.numbers.table.shared.table_id },
    ghost may_lie: { room.value.least ≤ loan.thing },
}

impl Guest {
    // A number of the room, where it is at home.
    fn enter(room: Arc<Room>, place: u32) -> Result<Guest, Arc<Room>> {
        if place >= room.numbers.count() {
            return Err(room);
        }
        match room.numbers.take(place) {
            Some(loan) => Ok(Guest { room, loan }),
            None => Err(room),
        }
    }

    fn leave(self) -> Arc<Room> {
        let Guest { room, loan } = self;
        room.numbers.give(loan);
        room
    }
}

fn may_cross<T: Send>(_: &T) {}

fn may_be_shared<T: Send + Sync>(_: &T) {}

#[test]
fn a_thing_is_lent_once_and_comes_back(rt: HostRuntime) -> Result<(), Fail> {
    let things = vec![in rt.alloc(); 10u64, 11, 12]?;
    let back = Vec::with_capacity(rt.alloc(), 3)?;
    let Ok(numbers) = Numbers::new(rt.alloc(), &Least { number: 10 }, things) else {
        return Err(Fail::from(AllocError));
    };
    let Some(mut loan) = numbers.take(1) else {
        panic!(rt; "it was at home")
    };
    assert!(rt; loan.thing == 11 && numbers.take(1).is_none() && !numbers.is_home(1));
    loan.thing = 20;
    numbers.give(loan);
    assert!(rt; numbers.is_home(1));
    let all = numbers.end(back);
    assert!(rt; all.is_ok_and(|all| all.as_slice() == [10, 20, 12].as_slice()));
    Ok(())
}

#[test]
fn what_is_out_at_the_end_is_missed(rt: HostRuntime) -> Result<(), Fail> {
    let things = vec![in rt.alloc(); 10u64, 11, 12]?;
    let back = Vec::with_capacity(rt.alloc(), 3)?;
    let Ok(numbers) = Numbers::new(rt.alloc(), &Least { number: 10 }, things) else {
        return Err(Fail::from(AllocError));
    };
    let loan = numbers.take(1);
    may_cross(&loan);
    may_be_shared(&numbers);
    let some = numbers.end(back);
    assert!(rt; loan.is_some_and(|loan| loan.thing == 11));
    assert!(rt; some.is_err_and(|some| some.as_slice() == [10, 12].as_slice()));
    Ok(())
}

#[test]
fn a_room_in_an_arc_gets_all_back(rt: HostRuntime) -> Result<(), Fail> {
    let things = vec![in rt.alloc(); 17u64, 11]?;
    let back = Vec::with_capacity(rt.alloc(), 2)?;
    let least = Least { number: 10 };
    let Ok(numbers) = Numbers::new(rt.alloc(), &least, things) else {
        return Err(Fail::from(AllocError));
    };
    let room = Arc::new(rt.alloc(), Room { least, numbers })?;
    let Ok(mut guest) = Guest::enter(Arc::try_clone(&room)?, 1) else {
        panic!(rt; "it was at home")
    };
    guest.loan.thing = guest.room.least.number;
    drop(guest.leave());
    let Ok(room) = Arc::try_unwrap(room) else {
        panic!(rt; "it was the last")
    };
    let Room { least: _, numbers } = room;
    let all = numbers.end(back);
    assert!(rt; all.is_ok_and(|all| all.as_slice() == [17, 10].as_slice()));
    Ok(())
}
