//! Made by `tools/examples --write`.

/// `readers_and_writers.sync`: a lock for many readers or one writer: two writers add 1 to two numbers five times each,
/// one number after the other, and two readers never find that they differ.
pub const READERS_AND_WRITERS_SYNC: &str = "\
# Many may read at once, or one may write. Slot 0 of the lock says how many read, slot 1 whether one writes.
# A writer adds 1 to both numbers of the pair, one after the other; a reader reads one after the other, and counts
# how often they differ. Slot 0 of the tally says how many threads are through, slot 1 how often the numbers differed.
class Lock 2
class Pair 2
class Tally 2
object lock Lock
object pair Pair
object tally Tally

thread reader_1
local l
local p
local t
local reads
local writes
local x
local y
local bad
local all
local i
local n
local one
ref l lock
ref p pair
ref t tally
set bad 0
set i 0
set n 5
set one 1
while i < n
  sync l
    get writes l 1
    while writes = one
      wait l
      get writes l 1
    done
    get reads l 0
    add reads reads one
    put l 0 reads
  done
  sync p
    get x p 0
  done
  sync p
    get y p 1
  done
  if x = y
  else
    add bad bad one
  done
  sync l
    get reads l 0
    sub reads reads one
    put l 0 reads
    notifyall l
  done
  add i i one
done
sync t
  get all t 0
  add all all one
  put t 0 all
  get all t 1
  add all all bad
  put t 1 all
  notifyall t
done
end

thread reader_2
local l
local p
local t
local reads
local writes
local x
local y
local bad
local all
local i
local n
local one
ref l lock
ref p pair
ref t tally
set bad 0
set i 0
set n 5
set one 1
while i < n
  sync l
    get writes l 1
    while writes = one
      wait l
      get writes l 1
    done
    get reads l 0
    add reads reads one
    put l 0 reads
  done
  sync p
    get x p 0
  done
  sync p
    get y p 1
  done
  if x = y
  else
    add bad bad one
  done
  sync l
    get reads l 0
    sub reads reads one
    put l 0 reads
    notifyall l
  done
  add i i one
done
sync t
  get all t 0
  add all all one
  put t 0 all
  get all t 1
  add all all bad
  put t 1 all
  notifyall t
done
end

thread writer_1
local l
local p
local t
local reads
local writes
local busy
local x
local all
local i
local n
local zero
local one
ref l lock
ref p pair
ref t tally
set i 0
set n 5
set zero 0
set one 1
while i < n
  sync l
    get reads l 0
    get writes l 1
    add busy reads writes
    while zero < busy
      wait l
      get reads l 0
      get writes l 1
      add busy reads writes
    done
    put l 1 one
  done
  sync p
    get x p 0
    add x x one
    put p 0 x
  done
  sync p
    put p 1 x
  done
  sync l
    put l 1 zero
    notifyall l
  done
  add i i one
done
sync t
  get all t 0
  add all all one
  put t 0 all
  notifyall t
done
end

thread writer_2
local l
local p
local t
local reads
local writes
local busy
local x
local all
local i
local n
local zero
local one
ref l lock
ref p pair
ref t tally
set i 0
set n 5
set zero 0
set one 1
while i < n
  sync l
    get reads l 0
    get writes l 1
    add busy reads writes
    while zero < busy
      wait l
      get reads l 0
      get writes l 1
      add busy reads writes
    done
    put l 1 one
  done
  sync p
    get x p 0
    add x x one
    put p 0 x
  done
  sync p
    put p 1 x
  done
  sync l
    put l 1 zero
    notifyall l
  done
  add i i one
done
sync t
  get all t 0
  add all all one
  put t 0 all
  notifyall t
done
end

# waits for the four others, and prints the first number, and how often the two numbers differed
thread judge
local p
local t
local through
local four
local x
local bad
ref p pair
ref t tally
set four 4
sync t
  get through t 0
  while through < four
    wait t
    get through t 0
  done
  get bad t 1
done
sync p
  get x p 0
done
print x
print bad
end
";
