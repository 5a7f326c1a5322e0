//! Made by `tools/examples --write`.

/// `answer.mon`: an enter, a print and an exit.
pub const ANSWER: &str = "\
class C 1
object a C
thread t1
local o
local v
ref o a
set v 42
enter o
print v
exit o
end
";

/// `bulk_rebias.mon`: 20 objects that one thread enters, and is biased to, and another after it: the first 19 biases
/// end singly, and at the 20th the class is biased anew in bulk, and the second thread gets the bias.
pub const BULK_REBIAS: &str = "\
class Item 0
class Flag 1
array items Item 20
object flag Flag
thread t1
local f
local o
local i
local n
local one
ref f flag
set i 0
set n 20
set one 1
label a
elem o items i
enter o
exit o
add i i one
jlt i n a
enter f
put f 0 one
notifyall f
exit f
end
thread t2
local f
local o
local i
local n
local one
local s
ref f flag
set i 0
set n 20
set one 1
enter f
label a
get s f 0
jeq s one b
wait f
jump a
label b
exit f
label c
elem o items i
enter o
exit o
add i i one
jlt i n c
print i
end
";

/// `contention.mon`: two threads that each add 1 to a slot 1,000 times.
pub const CONTENTION: &str = "\
class Cell 2
object c Cell
thread t1
local m
local i
local n
local one
local v
ref m c
set i 0
set n 1000
set one 1
label l
enter m
get v m 0
add v v one
put m 0 v
exit m
add i i one
jlt i n l
enter m
get v m 1
add v v one
put m 1 v
set n 2
jeq v n p
jump q
label p
get v m 0
print v
label q
exit m
end
thread t2
local m
local i
local n
local one
local v
ref m c
set i 0
set n 1000
set one 1
label l
enter m
get v m 0
add v v one
put m 0 v
exit m
add i i one
jlt i n l
enter m
get v m 1
add v v one
put m 1 v
set n 2
jeq v n p
jump q
label p
get v m 0
print v
label q
exit m
end
";

/// `counting.mon`: a loop in which an object is entered and left; it is the code of `counting.sync`.
pub const COUNTING: &str = "\
class C 1
object a C
thread t1
local o
local i
local n
local one
ref o a
set i 0
set n 2
set one 1
label L5
jlt i n L7
jump L12
label L7
enter o
print i
exit o
add i i one
jump L5
label L12
end
";

/// `crosswise.mon`: two threads, each of which holds the monitor that the other asks for.
pub const CROSSWISE: &str = "\
class C 1
object a C
object b C
object h C
thread t1
local x
local y
local g
local v
local one
local two
ref x a
ref y b
ref g h
set one 1
set two 2
enter x
enter g
get v g 0
add v v one
put g 0 v
notifyall g
label w
get v g 0
jeq v two r
wait g
jump w
label r
exit g
enter y
exit y
exit x
end
thread t2
local x
local y
local g
local v
local one
local two
ref x b
ref y a
ref g h
set one 1
set two 2
enter x
enter g
get v g 0
add v v one
put g 0 v
notifyall g
label w
get v g 0
jeq v two r
wait g
jump w
label r
exit g
enter y
exit y
exit x
end
";

/// `dining_rising.mon`: the same three, who take the fork with the lower number first.
pub const DINING_RISING: &str = "\
class Fork 0
object a Fork
object b Fork
object c Fork
thread plato
local first
local second
ref first a
ref second b
enter first
enter second
exit second
exit first
end
thread zeno
local first
local second
ref first b
ref second c
enter first
enter second
exit second
exit first
end
thread thales
local first
local second
ref first a
ref second c
enter first
enter second
exit second
exit first
end
";

/// `dining_three.mon`: three philosophers, each of whom takes one fork and then the next.
pub const DINING_THREE: &str = "\
class Fork 0
object a Fork
object b Fork
object c Fork
thread plato
local first
local second
ref first a
ref second b
enter first
enter second
exit second
exit first
end
thread zeno
local first
local second
ref first b
ref second c
enter first
enter second
exit second
exit first
end
thread thales
local first
local second
ref first c
ref second a
enter first
enter second
exit second
exit first
end
";

/// `dump.mon`: a dump of owners and counts.
pub const DUMP: &str = "\
class C 1
object a C
thread t1
local o
ref o a
enter o
enter o
dump
exit o
exit o
end
";

/// `exit_too_often.mon`: two enters and three exits: the third exit is refused, as the thread is no owner then.
pub const EXIT_TOO_OFTEN: &str = "\
class C 1
object a C
thread t1
local o
ref o a
enter o
enter o
exit o
exit o
exit o
end
";

/// `fault_by_order.mon`: a thread that adds to what another one may have made a reference meanwhile.
pub const FAULT_BY_ORDER: &str = "\
class C 1
object a C
thread t1
local o
local v
local one
ref o a
set one 1
enter o
get v o 0
add v v one
exit o
end
thread t2
local o
ref o a
enter o
put o 0 o
exit o
end
";

/// `hand_over.mon`: a value handed over by wait and notify.
pub const HAND_OVER: &str = "\
class Box 2
object b Box
thread t1
local o
local one
local v
ref o b
set one 1
set v 7
enter o
put o 1 v
put o 0 one
notify o
exit o
end
thread t2
local o
local one
local s
local v
ref o b
set one 1
enter o
label w
get s o 0
jeq s one r
wait o
jump w
label r
get v o 1
print v
exit o
end
";

/// `handover_40.mon`: 40 objects that one thread enters, and is biased to, and another after it, which takes them over,
/// until their class has no biases any more; `./biasrun make 40` writes it.
pub const HANDOVER_40: &str = "\
class Item 0
class Flag 1
array items Item 40
object flag Flag
thread t1
local f
local o
local i
local n
local one
local two
local s
ref f flag
set i 0
set n 40
set one 1
set two 2
label a
elem o items i
enter o
exit o
add i i one
jlt i n a
enter f
put f 0 one
notifyall f
label b
get s f 0
jeq s two c
wait f
jump b
label c
exit f
set i 19
jlt i n d
jump e
label d
elem o items i
enter o
exit o
add i i one
jlt i n d
label e
print n
end
thread t2
local f
local o
local i
local n
local one
local two
local s
ref f flag
set i 0
set n 40
set one 1
set two 2
enter f
label a
get s f 0
jeq s one b
wait f
jump a
label b
exit f
label c
elem o items i
enter o
exit o
add i i one
jlt i n c
enter f
put f 0 two
notifyall f
exit f
end
";

/// `hash.mon`: the identity hash of an object, the first of its thread's generator.
pub const HASH: &str = "\
class C 1
object a C
thread t1
local o
local v
ref o a
hash v o
print v
end
";

/// `inflated.mon`: an object that is inflated: its thread has it and asks for its hash, for which a lock record has no
/// room, so that the next enter goes by the monitor.
pub const INFLATED: &str = "\
class C 0
object a C
thread t1
local o
local h
ref o a
enter o
hash h o
exit o
enter o
print h
exit o
end
";

/// `lost_notify.mon`: a wait and a notify without a flag.
pub const LOST_NOTIFY: &str = "\
class C 0
object a C
thread t1
local o
ref o a
enter o
wait o
exit o
end
thread t2
local o
ref o a
enter o
notify o
exit o
end
";

/// `made.mon`: an object that the thread makes, enters, prints and leaves.
pub const MADE: &str = "\
class C 1
thread t1
local x
new x C
enter x
print x
exit x
end
";

/// `many_objects.mon`: an array of 101 objects and two threads that only end.
pub const MANY_OBJECTS: &str = "\
class C 1
array o C 101
thread t1
end
thread t2
end
";

/// `overflow.mon`: a sum past the greatest number.
pub const OVERFLOW: &str = "\
thread t1
local x
local y
set x 2305843009213693951
set y 1
add x x y
end
";

/// `stale_epoch.mon`: the same with a 21st object, which the first thread alone enters: after the bulk rebias its own
/// bias is of an old epoch, and it has to take a new one.
pub const STALE_EPOCH: &str = "\
class Item 0
class Flag 1
array items Item 21
object flag Flag
thread t1
local f
local o
local i
local n
local one
local two
local s
ref f flag
set i 0
set n 21
set one 1
set two 2
label a
elem o items i
enter o
exit o
add i i one
jlt i n a
enter f
put f 0 one
notifyall f
label b
get s f 0
jeq s two c
wait f
jump b
label c
exit f
enter o
exit o
enter o
exit o
print i
end
thread t2
local f
local o
local i
local n
local one
local two
local s
ref f flag
set i 0
set n 20
set one 1
set two 2
enter f
label a
get s f 0
jeq s one b
wait f
jump a
label b
exit f
label c
elem o items i
enter o
exit o
add i i one
jlt i n c
enter f
put f 0 two
notifyall f
exit f
end
";

/// `too_deep.mon`: 65 enters, of which 64 are allowed.
pub const TOO_DEEP: &str = "\
class C 1
object a C
thread t1
local o
local i
local n
local one
ref o a
set i 0
set n 65
set one 1
label l
enter o
add i i one
jlt i n l
end
";

/// `too_many.mon`: 1,025 objects, of which 1,024 are allowed.
pub const TOO_MANY: &str = "\
class C 0
thread t1
local x
local i
local n
local one
set i 0
set n 1025
set one 1
label l
new x C
add i i one
jlt i n l
end
";
