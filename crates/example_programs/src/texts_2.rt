//! Made by `tools/examples --write`.

/// `two_adders.mon`: two threads that each add 1 to a slot twice.
pub const TWO_ADDERS: &str = "\
class C 1
object a C
thread t1
local o
local v
local i
local n
local one
ref o a
set i 0
set n 2
set one 1
label l
enter o
get v o 0
add v v one
put o 0 v
exit o
add i i one
jlt i n l
end
thread t2
local o
local v
local i
local n
local one
ref o a
set i 0
set n 2
set one 1
label l
enter o
get v o 0
add v v one
put o 0 v
exit o
add i i one
jlt i n l
end
";

/// `unguarded_get.mon`: a slot read without the monitor.
pub const UNGUARDED_GET: &str = "\
class C 1
object a C
thread t1
local o
local v
ref o a
get v o 0
end
";

/// `wait_forever.mon`: a wait that nobody notifies.
pub const WAIT_FOREVER: &str = "\
class C 1
object a C
thread t1
local o
ref o a
enter o
wait o
exit o
end
";

/// `wait_without_hold.mon`: a wait by a thread that isn't the owner.
pub const WAIT_WITHOUT_HOLD: &str = "\
class C 1
object a C
thread t1
local o
ref o a
wait o
end
";

/// `bounded_buffer.sync`: a buffer with two places, between a thread that puts 1 to 6 into it and one that takes them
/// out and prints them; each waits where it has to.
pub const BOUNDED_BUFFER_SYNC: &str = "\
# A buffer with two places. Slot 0 of the buffer says how many items are in it, slot 0 of a place is its item.
class Buffer 1
class Place 1
object buffer Buffer
array places Place 2

# puts 1 to 6 into the buffer, and waits where it is full
thread producer
local b
local p
local count
local place
local item
local end_item
local one
local two
ref b buffer
set place 0
set item 1
set end_item 7
set one 1
set two 2
while item < end_item
  sync b
    get count b 0
    while count = two
      wait b
      get count b 0
    done
    elem p places place
    sync p
      put p 0 item
    done
    add count count one
    put b 0 count
    notifyall b
  done
  add item item one
  add place place one
  if place = two
    set place 0
  done
done
end

# takes six items, the oldest first, prints each, and waits where there is none
thread consumer
local b
local p
local count
local place
local taken
local all
local item
local zero
local one
local two
ref b buffer
set place 0
set taken 0
set all 6
set zero 0
set one 1
set two 2
while taken < all
  sync b
    get count b 0
    while count = zero
      wait b
      get count b 0
    done
    elem p places place
    sync p
      get item p 0
    done
    sub count count one
    put b 0 count
    notifyall b
  done
  print item
  add taken taken one
  add place place one
  if place = two
    set place 0
  done
done
end
";

/// `counting.sync`: a `sync` in a `while`.
pub const COUNTING_SYNC: &str = "\
class C 1
object a C
thread t1
local o
local i
local n
local one
ref o a
set i 0
set n 2
set one 1
while i < n
  sync o
    print i
  done
  add i i one
done
end
";

/// `crossed_blocks.sync`: two objects that two threads enter in crossed order, each when the other has its first one.
pub const CROSSED_BLOCKS_SYNC: &str = "\
# Two threads that enter two objects in crossed order. Each waits for the other one by the gate, until both have their
# first object; so both are stuck then, whoever came first.
class C 1
object a C
object b C
object gate C

thread t1
local x
local y
local g
local v
local one
local two
ref x a
ref y b
ref g gate
set one 1
set two 2
sync x
  sync g
    get v g 0
    add v v one
    put g 0 v
    notifyall g
    while v < two
      wait g
      get v g 0
    done
  done
  sync y
    print one
  done
done
end

thread t2
local x
local y
local g
local v
local one
local two
ref x b
ref y a
ref g gate
set one 1
set two 2
sync x
  sync g
    get v g 0
    add v v one
    put g 0 v
    notifyall g
    while v < two
      wait g
      get v g 0
    done
  done
  sync y
    print one
  done
done
end
";

/// `made_by_each.sync`: three threads that make an object each, and add 1 to all three.
pub const MADE_BY_EACH_SYNC: &str = "\
# Each of three threads makes a counter and puts it into the table, slots 0 to 2 of which are the counters. When all three
# are there, each thread adds 1 to every one of them. Slot 3 of the table says how many counters are there, slot 4 how
# many threads are through.
class Table 5
class Counter 1
object table Table

thread plato
local t
local own
local c
local count
local sum
local i
local three
local one
ref t table
set three 3
set one 1
new own Counter
sync t
  put t 0 own
  get count t 3
  add count count one
  put t 3 count
  notifyall t
  while count < three
    wait t
    get count t 3
  done
done
set i 0
while i < three
  sync t
    get c t 0
    if i = one
      get c t 1
    else
      if one < i
        get c t 2
      done
    done
  done
  sync c
    get sum c 0
    add sum sum one
    put c 0 sum
  done
  add i i one
done
sync t
  get count t 4
  add count count one
  put t 4 count
  notifyall t
done
end

thread zeno
local t
local own
local c
local count
local sum
local i
local three
local one
ref t table
set three 3
set one 1
new own Counter
sync t
  put t 1 own
  get count t 3
  add count count one
  put t 3 count
  notifyall t
  while count < three
    wait t
    get count t 3
  done
done
set i 0
while i < three
  sync t
    get c t 0
    if i = one
      get c t 1
    else
      if one < i
        get c t 2
      done
    done
  done
  sync c
    get sum c 0
    add sum sum one
    put c 0 sum
  done
  add i i one
done
sync t
  get count t 4
  add count count one
  put t 4 count
  notifyall t
done
end

thread thales
local t
local own
local c
local count
local sum
local i
local three
local one
ref t table
set three 3
set one 1
new own Counter
sync t
  put t 2 own
  get count t 3
  add count count one
  put t 3 count
  notifyall t
  while count < three
    wait t
    get count t 3
  done
done
set i 0
while i < three
  sync t
    get c t 0
    if i = one
      get c t 1
    else
      if one < i
        get c t 2
      done
    done
  done
  sync c
    get sum c 0
    add sum sum one
    put c 0 sum
  done
  add i i one
done
sync t
  get count t 4
  add count count one
  put t 4 count
  notifyall t
done
end

# waits for the three others, and prints the three counters and what each of them says
thread host
local t
local c
local through
local three
local sum
ref t table
set three 3
sync t
  get through t 4
  while through < three
    wait t
    get through t 4
  done
  get c t 0
  sync c
    get sum c 0
  done
  print c
  print sum
  get c t 1
  sync c
    get sum c 0
  done
  print c
  print sum
  get c t 2
  sync c
    get sum c 0
  done
  print c
  print sum
done
end
";

/// `made_queue.sync`: a queue whose nodes one thread makes and another takes; each node has an item and the node after
/// it.
pub const MADE_QUEUE_SYNC: &str = "\
# A queue of nodes that one thread makes and another takes. Slot 0 of the queue is its first node, slot 1 its last
# one, and slot 2 how many there are. Slot 0 of a node is its item, slot 1 the node behind it.
class Queue 3
class Node 2
object queue Queue

# makes a node for each number from 1 to 6, and puts it behind the last one
thread producer
local q
local node
local last
local count
local item
local end_item
local zero
local one
ref q queue
set item 1
set end_item 7
set zero 0
set one 1
while item < end_item
  new node Node
  sync node
    put node 0 item
  done
  sync q
    get count q 2
    if count = zero
      put q 0 node
    else
      get last q 1
      sync last
        put last 1 node
      done
    done
    put q 1 node
    add count count one
    put q 2 count
    notifyall q
  done
  add item item one
done
end

# takes six nodes, the oldest first, and prints the item of each
thread consumer
local q
local node
local next_node
local count
local taken
local all
local item
local zero
local one
ref q queue
set taken 0
set all 6
set zero 0
set one 1
while taken < all
  sync q
    get count q 2
    while count = zero
      wait q
      get count q 2
    done
    get node q 0
    sync node
      get item node 0
      get next_node node 1
    done
    put q 0 next_node
    sub count count one
    put q 2 count
  done
  print item
  add taken taken one
done
end
";

/// `philosophers.sync`: three threads that take two of three objects each, always the one with the lower number first,
/// so that none is stuck; each object is entered so for eight meals.
pub const PHILOSOPHERS_SYNC: &str = "\
# Three philosophers eat four times each, with the two forks beside them. Each takes the fork with the lower number
# first, so they can't wait for one another in a circle. Slot 0 of a fork says how often it was eaten with, slot 0
# of the table how many philosophers are through.
class Fork 1
class Table 1
array forks Fork 3
object table Table

thread plato
local first
local second
local t
local meals
local i
local n
local one
ref t table
set i 0
elem first forks i
set i 1
elem second forks i
set i 0
set n 4
set one 1
while i < n
  sync first
    sync second
      get meals first 0
      add meals meals one
      put first 0 meals
      get meals second 0
      add meals meals one
      put second 0 meals
    done
  done
  add i i one
done
sync t
  get meals t 0
  add meals meals one
  put t 0 meals
  notifyall t
done
end

thread zeno
local first
local second
local t
local meals
local i
local n
local one
ref t table
set i 1
elem first forks i
set i 2
elem second forks i
set i 0
set n 4
set one 1
while i < n
  sync first
    sync second
      get meals first 0
      add meals meals one
      put first 0 meals
      get meals second 0
      add meals meals one
      put second 0 meals
    done
  done
  add i i one
done
sync t
  get meals t 0
  add meals meals one
  put t 0 meals
  notifyall t
done
end

thread thales
local first
local second
local t
local meals
local i
local n
local one
ref t table
set i 0
elem first forks i
set i 2
elem second forks i
set i 0
set n 4
set one 1
while i < n
  sync first
    sync second
      get meals first 0
      add meals meals one
      put first 0 meals
      get meals second 0
      add meals meals one
      put second 0 meals
    done
  done
  add i i one
done
sync t
  get meals t 0
  add meals meals one
  put t 0 meals
  notifyall t
done
end

# waits for the three others, and prints of each fork how often it was eaten with
thread host
local f
local t
local through
local three
local meals
local i
local one
ref t table
set three 3
set one 1
sync t
  get through t 0
  while through < three
    wait t
    get through t 0
  done
done
set i 0
while i < three
  elem f forks i
  sync f
    get meals f 0
  done
  print meals
  add i i one
done
end
";
