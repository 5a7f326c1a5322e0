//! How many there are of everything, and where each word lies.
ghost use Rattle.std.specs.Prelude.{◌≡◌, ◌≢◌, ◌⊎◌, ◌<◌, ◌≤◌, ◌+◌, ◌*◌, ◌/◌, ◌++◌, All, IfOk, length, map, replicate, slice_index};
ghost use Rattle.plain_monitor.specs.Limits.{most_threads, most_classes, most_slots, most_objects, most_in_all, most_holds};
ghost use Rattle.core_world.specs.Words.Shape.{Shape, IsInLimits, class_in_shape, slots_of, ring_places};
ghost use Rattle.core_world.specs.There.{IsIn};
ghost use Rattle.heap_table.specs.Layout.{group, number, place_of, word_count, many, shape_of, with_made, widest, object_size, classes_from, objects_from, threads_from, monitors_from, ring_from};

use core_world::WordId;
use plain_monitor::NoMemory;
use plain_monitor::limits::MADE;
use std::alloc::{AllocError, Global};
use std::marker::Model;

/// The shape of a heap. It keeps how many objects are declared, the class and the number of slots of each object, how
/// many words each object's group has, and where the groups of the objects and those of the threads begin.
#[derive(Drop)]
pub struct HeapShape {
    threads: u32,
    classes: u32,
    declared: u32,
    objects: Vec<(u32, u32)>,
    size: u32,
    objects_at: u32,
    threads_at: u32,
}

impl Model for HeapShape {
    ghost use Rattle.std.specs.Prelude.{◌≡◌};
    ghost use Rattle.core_world.specs.Words.Shape.{Shape, IsInLimits};
    ghost use Rattle.heap_table.specs.Layout.{object_size, objects_from, threads_from};

    ghost Value = { Shape };

    ghost view = { λ s. record { threads = s.threads; classes = s.classes; declared = s.declared; objects = s.objects.items } };

    ghost invariant = { λ s. IsInLimits (record {
      threads = s.threads;
      classes = s.classes;
      declared = s.declared;
      objects = s.objects.items;
    }) × (s.size ≡ object_size (record {
      threads = s.threads;
      classes = s.classes;
      declared = s.declared;
      objects = s.objects.items;
    })) × (s.objects_at ≡ objects_from (record {
      threads = s.threads;
      classes = s.classes;
      declared = s.declared;
      objects = s.objects.items;
    }))
        × (s.threads_at ≡ threads_from (record {
          threads = s.threads;
          classes = s.classes;
          declared = s.declared;
          objects = s.objects.items;
        })) };
}

/// Places in the table. Each of these is the place of the word of that name.
impl HeapShape {
    /// The safepoint word.
    #[inline(always)]
    pub fn safe_at(&self) -> usize
        ensures { result ≡ place_of self.now WordId.Safepoint }
    {
        0
    }

    /// How many ring positions have been claimed.
    #[inline(always)]
    pub fn claim_at(&self) -> usize
        ensures { result ≡ place_of self.now WordId.Claim }
    {
        8
    }

    /// The ring position after the last monitor in the ring. It lies beside the claim word, and may lie in the line of
    /// the safepoint word: it is stored only at a reached safepoint, where nobody runs.
    #[inline(always)]
    pub fn end_at(&self) -> usize
        ensures { result ≡ place_of self.now WordId.End }
    {
        7
    }

    /// The monitor at the ring's positions of this remainder. The ring's words lie side by side after all others: a
    /// claim only loads one, so that threads that claim don't take lines of a cache from one another.
    #[inline(always)]
    pub fn ring_at(&self, place: u32) -> usize
        requires { place < ring_places self.now }
        ensures { result ≡ place_of self.now (WordId.Ring place) }
    {
        self.ring_from() + place as usize
    }

    /// The prototype of the class.
    #[inline(always)]
    pub fn prototype_at(&self, class: u32) -> usize
        requires { class < self.now.classes }
        ensures { result ≡ place_of self.now (WordId.Prototype class) }
    {
        self.class_group_at(class)
    }

    /// The count of revocations of the class.
    #[inline(always)]
    pub fn count_at(&self, class: u32) -> usize
        requires { class < self.now.classes }
        ensures { result ≡ place_of self.now (WordId.Revocations class) }
    {
        self.class_group_at(class) + 1
    }

    /// The moment of the class's last bulk operation, in milliseconds, or 0.
    #[inline(always)]
    pub fn last_at(&self, class: u32) -> usize
        requires { class < self.now.classes }
        ensures { result ≡ place_of self.now (WordId.LastBulk class) }
    {
        self.class_group_at(class) + 2
    }

    /// The mark of the object.
    #[inline(always)]
    pub fn mark_at(&self, object: u32) -> usize
        requires { object < many self.now }
        ensures place { result ≡ place_of self.now (WordId.Mark object) }
        ensures low { result < 1000000 }
    {
        self.group_at(object)
    }

    /// The stamp of the object.
    #[inline(always)]
    pub fn stamp_at(&self, object: u32) -> usize
        requires { object < many self.now }
        ensures { result ≡ place_of self.now (WordId.Stamp object) }
    {
        self.group_at(object) + 1
    }

    /// The class word of the object. A declared object's group has the place, too, but no such word.
    #[inline(always)]
    pub fn class_at(&self, object: u32) -> usize
        requires { object < many self.now }
        ensures { result ≡ place_of self.now (WordId.Class object) }
    {
        self.group_at(object) + 2
    }

    /// This slot of the object. A slot that the object doesn't have has no word, and its place may be another word's.
    #[inline(always)]
    pub fn slot_at(&self, object: u32, slot: u32) -> usize
        requires { object < many self.now }
        ensures { result ≡ place_of self.now (WordId.Slot object slot) }
    {
        self.group_at(object) + 3 + slot as usize
    }

    /// The thread's hold word of this place.
    #[inline(always)]
    pub fn hold_at(&self, thread: u32, place: u32) -> usize
        requires { (thread < self.now.threads) × (place < most_holds) }
        ensures place { result ≡ place_of self.now (WordId.Hold thread place) }
        ensures low { result < 1000064 }
    {
        self.thread_at(thread) + place as usize
    }

    /// The displaced header of the thread's lock record of this place.
    #[inline(always)]
    pub fn displaced_at(&self, thread: u32, place: u32) -> usize
        requires { (thread < self.now.threads) × (place < most_holds) }
        ensures { result ≡ place_of self.now (WordId.Displaced thread place) }
    {
        self.thread_at(thread) + 64 + place as usize
    }

    /// The thread's waiting word.
    #[inline(always)]
    pub fn wait_at(&self, thread: u32) -> usize
        requires { thread < self.now.threads }
        ensures { result ≡ place_of self.now (WordId.Waiting thread) }
    {
        self.thread_at(thread) + 136
    }

    /// The thread's published length.
    #[inline(always)]
    pub fn length_at(&self, thread: u32) -> usize
        requires { thread < self.now.threads }
        ensures { result ≡ place_of self.now (WordId.Length thread) }
    {
        self.thread_at(thread) + 128
    }

    /// The owner word of the monitor.
    #[inline(always)]
    pub fn owner_at(&self, monitor: u32) -> usize
        requires { monitor < many self.now + self.now.threads }
        ensures { result ≡ place_of self.now (WordId.Owner monitor) }
    {
        self.monitor_at(monitor)
    }

    /// The recursions of the monitor.
    #[inline(always)]
    pub fn recursions_at(&self, monitor: u32) -> usize
        requires { monitor < many self.now + self.now.threads }
        ensures { result ≡ place_of self.now (WordId.Recursions monitor) }
    {
        self.monitor_at(monitor) + 1
    }

    /// The header that the monitor keeps.
    #[inline(always)]
    pub fn header_at(&self, monitor: u32) -> usize
        requires { monitor < many self.now + self.now.threads }
        ensures { result ≡ place_of self.now (WordId.Header monitor) }
    {
        self.monitor_at(monitor) + 2
    }

    /// The object of the monitor.
    #[inline(always)]
    pub fn object_at(&self, monitor: u32) -> usize
        requires { monitor < many self.now + self.now.threads }
        ensures { result ≡ place_of self.now (WordId.Object monitor) }
    {
        self.monitor_at(monitor) + 3
    }

    /// The word of this name.
    #[inline(always)]
    pub fn place(&self, at: WordId) -> usize
        requires { IsIn self.now at }
        ensures place { result ≡ place_of self.now at }
        ensures within { result < word_count self.now }
    {
        match at {
            WordId::Safepoint => self.safe_at(),
            WordId::Prototype { class } => self.prototype_at(class),
            WordId::Revocations { class } => self.count_at(class),
            WordId::LastBulk { class } => self.last_at(class),
            WordId::Mark { object } => self.mark_at(object),
            WordId::Stamp { object } => self.stamp_at(object),
            WordId::Class { object } => self.class_at(object),
            WordId::Slot { object, slot } => self.slot_at(object, slot),
            WordId::Hold { thread, place } => self.hold_at(thread, place),
            WordId::Displaced { thread, place } => self.displaced_at(thread, place),
            WordId::Waiting { thread } => self.wait_at(thread),
            WordId::Length { thread } => self.length_at(thread),
            WordId::Owner { monitor } => self.owner_at(monitor),
            WordId::Recursions { monitor } => self.recursions_at(monitor),
            WordId::Header { monitor } => self.header_at(monitor),
            WordId::Object { monitor } => self.object_at(monitor),
            WordId::Claim => self.claim_at(),
            WordId::End => self.end_at(),
            WordId::Ring { place } => self.ring_at(place),
        }
    }

    // `place` as a function of its own, for words that a way of few kinds never comes to.
    #[inline(never)]
    fn place_elsewhere(&self, at: WordId) -> usize
        requires { IsIn self.now at }
        ensures { result ≡ place_of self.now at }
    {
        self.place(at)
    }

    /// `place` for owner words and recursions: with fewer kinds to tell apart the code stays small that is built into another function.
    #[inline(always)]
    pub fn place_in_monitor(&self, at: WordId) -> usize
        requires { IsIn self.now at }
        ensures { result ≡ place_of self.now at }
    {
        match at {
            WordId::Owner { monitor } => self.owner_at(monitor),
            WordId::Recursions { monitor } => self.recursions_at(monitor),
            _ => self.place_elsewhere(at),
        }
    }
}

// Where the groups of words begin.
impl HeapShape {
    #[inline(always)]
    fn class_group_at(&self, class: u32) -> usize
        requires { class < self.now.classes }
        ensures place { result ≡ classes_from + 16 * class }
        ensures low { result < 1000000 }
    {
        let _classes = self.classes;
        16 + 16 * class as usize
    }

    // How many words so many objects have.
    #[inline(always)]
    fn words_of(&self, objects: usize) -> usize
        requires { objects ≤ most_in_all }
        ensures words { result ≡ object_size self.now * objects }
        ensures low { result ≤ 655360 }
    {
        self.size as usize * objects
    }

    #[inline(always)]
    fn group_at(&self, object: u32) -> usize
        requires { object < many self.now }
        ensures place { result ≡ objects_from self.now + object_size self.now * object }
        ensures low { result < 1000000 }
    {
        self.objects_at as usize + self.words_of(object as usize)
    }

    // Where the groups of the threads begin.
    #[inline(always)]
    fn threads_from(&self) -> usize
        ensures place { result ≡ threads_from self.now }
        ensures low { result ≤ 656400 }
    {
        self.threads_at as usize
    }

    #[inline(always)]
    fn thread_at(&self, thread: u32) -> usize
        requires { thread < self.now.threads }
        ensures place { result ≡ threads_from self.now + 144 * thread }
        ensures low { result < 1000000 }
    {
        let _threads = self.threads;
        self.threads_from() + 144 * thread as usize
    }

    #[inline(always)]
    fn monitor_at(&self, monitor: u32) -> usize
        requires { monitor < many self.now + self.now.threads }
        ensures place { result ≡ monitors_from self.now + 11 * monitor }
        ensures low { result < 1000000 }
    {
        self.threads_from() + 144 * self.threads as usize + 11 * monitor as usize
    }

    #[inline(always)]
    fn ring_from(&self) -> usize
        ensures place { result ≡ ring_from self.now }
        ensures low { result ≤ 884160 }
    {
        let monitors = self.objects.len() + self.threads as usize;
        self.threads_from() + 144 * self.threads as usize + 11 * monitors
    }
}

// How many words there are.
impl HeapShape {
    /// How many words the group of each object has.
    #[inline(always)]
    pub fn object_size(&self) -> usize
        ensures size { result ≡ object_size self.now }
        ensures one_of_three { (result ≡ 16) ⊎ (result ≡ 24) ⊎ (result ≡ 32) }
    {
        self.size as usize
    }

    /// How many words the table has, at most 916,928.
    pub fn word_count(&self) -> usize
        ensures count { result ≡ word_count self.now }
        ensures few { result ≤ 916928 }
    {
        self.ring_from() + self.ring_places() as usize
    }
}

// The class and the number of slots of each object.
fn objects_of(alloc: Global, slots: &[u32], classes: &[u32]) -> Result<Vec<(u32, u32)>, AllocError>
    requires { All (λ c. c < length slots.now) classes.now }
    ensures { IfOk result (λ v. v.items ≡ map (λ c. (c, slice_index slots.now c)) classes.now) }
{
    let mut objects = Vec::with_capacity(alloc, classes.len())?;
    for class in classes {
        objects.push((*class, slots[*class as usize]))?;
    }
    Ok(objects)
}

// So many objects more, with so many slots.
fn push_made(objects: &mut Vec<(u32, u32)>, count: usize, slots: u32) -> Result<(), AllocError>
    ensures { IfOk result (λ _. objects.new.items ≡ objects.old.items ++ replicate count (0, slots)) }
{
    for _i in 0..count {
        objects.push((0, slots))?;
    }
    Ok(())
}

// The most slots of any of these objects.
fn widest(objects: &[(u32, u32)]) -> u32
    ensures { result ≡ widest objects.now }
{
    let mut most = 0;
    for object in objects {
        most = most.max(object.1);
    }
    most
}

// The words of an object's group: its three first ones, its slots, and seven that lie free, in whole lines.
fn size_for(slots: u32) -> u32
    requires { slots ≤ most_slots }
    ensures { result ≡ 8 * ((slots + 10 + 7) / 8) }
{
    8 * ((slots + 10 + 7) / 8)
}

impl HeapShape {
    /// Makes the shape of `threads` threads, of classes whose objects have so many slots, and of an object of each of
    /// these classes. The first `declared` of the objects are declared; threads make the others. `with_made` adds
    /// numbers for these.
    ///
    /// # Errors
    ///
    /// `NoMemory` where an allocation fails.
    pub fn of(
        alloc: Global,
        threads: u32,
        slots: &[u32],
        classes: &[u32],
        declared: u32,
    ) -> Result<HeapShape, NoMemory>
        requires counts { (threads ≤ most_threads) × (length slots.now ≤ most_classes)
            × (length classes.now ≤ most_in_all) }
        requires declared { declared ≤ length classes.now }
        requires slots { All (λ n. n ≤ most_slots) slots.now }
        requires classes { All (λ c. c < length slots.now) classes.now }
        ensures { IfOk result (λ s. s ≡ shape_of threads slots.now classes.now declared) }
    {
        match objects_of(alloc, slots, classes) {
            Err(_) => Err(NoMemory),
            Ok(objects) => Ok(HeapShape::with_size(threads, slots.len() as u32, declared, objects)),
        }
    }

    // The shape with these objects.
    fn with_size(threads: u32, classes: u32, declared: u32, objects: Vec<(u32, u32)>) -> HeapShape
        requires { IsInLimits (record {
          threads = threads;
          classes = classes;
          declared = declared;
          objects = objects.items;
        }) }
        ensures { result ≡ record {
          threads = threads;
          classes = classes;
          declared = declared;
          objects = objects.items;
        } }
    {
        let size = size_for(widest(&objects));
        let objects_at = 16 + 16 * classes;
        let threads_at = objects_at + size * objects.len() as u32;
        HeapShape {
            threads,
            classes,
            declared,
            objects,
            size,
            objects_at,
            threads_at,
        }
    }

    /// Adds numbers for the objects that threads make: 1,024 for each thread, after the objects that are there,
    /// which are at most 4,096. Each has `slots` slots, at most 16, whatever its class, which it gets when it is
    /// made. Without a class nothing could be made.
    ///
    /// # Errors
    ///
    /// `NoMemory` where an allocation fails.
    pub fn with_made(self, slots: u32) -> Result<HeapShape, NoMemory>
        requires room { length self.objects ≤ most_objects }
        requires class { 1 ≤ self.classes }
        requires slots { slots ≤ most_slots }
        ensures { IfOk result (λ s. s ≡ with_made self slots) }
    {
        let HeapShape {
            threads,
            classes,
            declared,
            mut objects,
            ..
        } = self;
        match push_made(&mut objects, (MADE * threads) as usize, slots) {
            Err(_) => Err(NoMemory),
            Ok(()) => Ok(HeapShape::with_size(threads, classes, declared, objects)),
        }
    }

    /// The number of threads, at most 16.
    #[inline(always)]
    pub fn threads(&self) -> u32
        ensures same { result ≡ self.now.threads }
        ensures limits { IsInLimits self.now }
    {
        self.threads
    }

    /// The number of classes, at most 64.
    #[inline(always)]
    pub fn classes(&self) -> u32
        ensures { result ≡ self.now.classes }
    {
        self.classes
    }

    /// The number of objects, at most 20,480.
    #[inline(always)]
    pub fn objects(&self) -> usize
        ensures { result ≡ length self.now.objects }
    {
        self.objects.len()
    }

    /// How many of the objects are declared. They have the first numbers.
    #[inline(always)]
    pub fn declared(&self) -> u32
        ensures same { result ≡ self.now.declared }
        ensures within { result ≤ many self.now }
    {
        self.declared
    }

    /// How many places the ring of monitors has: the least power of two that is at least the number of monitors, one
    /// for each object and each thread. From 1 to 32,768.
    pub fn ring_places(&self) -> u32
        ensures places { result ≡ ring_places self.now }
        ensures few { (1 ≤ result) × (result ≤ 32768) }
    {
        (self.objects.len() as u32 + self.threads).next_power_of_two()
    }

    /// The class of a declared object. Of another, the shape tells only the number of slots.
    #[inline(always)]
    pub fn class_of(&self, object: u32) -> u32
        requires { object < many self.now }
        ensures class { result ≡ class_in_shape self.now object }
        ensures within { result < self.now.classes }
    {
        self.objects[object as usize].0
    }

    /// The number of the object's slots, at most 16.
    #[inline(always)]
    pub fn slots_of(&self, object: u32) -> u32
        requires { object < many self.now }
        ensures slots { result ≡ slots_of self.now object }
        ensures few { result ≤ most_slots }
    {
        self.objects[object as usize].1
    }
}

/// No two names have one place.
pub fn no_two_names_have_one_place()
    ensures { (s : Shape) (m n : WordId) → IsIn s m → IsIn s n → place_of s m ≡ place_of s n → m ≡ n }
{}

/// The words of two groups, which different threads may store, lie 8 words or more apart, and so in different lines of
/// a cache of 64 bytes a line. A group is that of one class, object, thread or monitor, or has the words of the heap, or
/// those of the ring.
pub fn words_of_two_groups_lie_apart()
    ensures { (s : Shape) (m n : WordId) → IsIn s m → IsIn s n → (group m ≢ group n) ⊎ (number m ≢ number n)
        → (place_of s m + 8 ≤ place_of s n) ⊎ (place_of s n + 8 ≤ place_of s m) }
{}
