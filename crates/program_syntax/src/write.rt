//! The canonical text of a program, written.

ghost use Rattle.std.specs.Prelude.{◌≡◌, ◌+◌, ◌∷◌, ◌++◌, [], map, if◌then◌else◌, OnOk, OnErr, Ok, ◌≤◌, length};
ghost use Rattle.std.specs.Prelude.{codes, decimal};
ghost use Rattle.std.specs.Fmt.{signed_decimal};
ghost use Rattle.std.specs.List.{join_with_byte};
ghost use Rattle.program_syntax.specs.Text.{most_bytes};
ghost use Rattle.program_syntax.specs.Canonical.{canonical, program_lines, line_text, class_name, object_name};
ghost use Rattle.program_syntax.specs.Canonical.{local_name, label_name, class_words, object_words, local_words};
ghost use Rattle.program_syntax.specs.Canonical.{label_words, thread_lines};
ghost use Rattle.program_syntax.specs.Refusal.{program_of};
ghost use Rattle.program_syntax.specs.Written.{BeginsWith, lines_text, objects_text, instruction_text};
ghost use Rattle.program_syntax.specs.inner.Written.{threads_text, code_text, labels_text, step_text};

use crate::laws::canonical_texts_are_read_back;
use itoa::Buffer;
use object_program::{ClassDef, Code, LabelDef, Name, ObjectDef, Program, ThreadDef};
use plain_monitor::NoMemory;

/// Writes the canonical text of the program after the bytes of `out`. Where that text has at most 1,048,576 bytes, it
/// is read as this very program.
///
/// # Errors
///
/// `NoMemory` where an allocation fails. Then `out` is as it was before.
pub fn write_program(program: &Program, out: &mut Vec<u8>) -> Result<(), NoMemory>
    ensures ok { OnOk result (out.new.items ≡ out.old.items ++ canonical program.now) }
    ensures err { OnErr result (out.new.items ≡ out.old.items) }
    ensures read { length (canonical program.now) ≤ most_bytes → program_of (canonical program.now) ≡ Ok program.now }
{
    canonical_texts_are_read_back();
    // A look at a field tells the proof what holds of every `Program`.
    let _ = &program.threads;
    let length = out.len();
    let written = write_parts(program, out);
    if written.is_err() {
        out.truncate(length);
    }
    written
}

/// Writes the lines of the program, part by part.
#[tactic(auto, using(crate::proofs::Written::err_after))]
fn write_parts(program: &Program, out: &mut Vec<u8>) -> Result<(), NoMemory>
    ensures ok { OnOk result (out.new.items ≡ out.old.items ++ lines_text (program_lines program.now)) }
    ensures err { OnErr result (BeginsWith out.old.items out.new.items) }
{
    let classes = program.classes.items();
    let objects = program.objects.items();
    write_classes(classes, out)?;
    write_objects(classes, objects, out)?;
    write_threads(classes, objects, program.threads.items(), out)
}

/// Writes a line of these words.
///
/// # Errors
///
/// `NoMemory` where an allocation fails.
#[tactic(auto, using(crate::proofs::Written::err_after))]
pub fn write_line(out: &mut Vec<u8>, words: &[&[u8]]) -> Result<(), NoMemory>
    ensures ok { OnOk result (out.new.items ≡ out.old.items ++ line_text (map (λ w. w.now) words.now)) }
    ensures err { OnErr result (BeginsWith out.old.items out.new.items) }
{
    write_words(out, words)?;
    write_bytes(out, b"\n")
}

/// Writes these words, with a space between each two.
fn write_words(out: &mut Vec<u8>, words: &[&[u8]]) -> Result<(), NoMemory>
    ensures ok { OnOk result (out.new.items ≡ out.old.items ++ join_with_byte 32 (map (λ w. w.now) words.now)) }
    ensures err { OnErr result (BeginsWith out.old.items out.new.items) }
{
    for (i, word) in words.iter().enumerate() {
        write_word(out, i == 0, word)?;
    }
    Ok(())
}

/// Writes a word, after a space unless it is the first of its line.
fn write_word(out: &mut Vec<u8>, first: bool, word: &[u8]) -> Result<(), NoMemory>
    ensures ok { OnOk result (out.new.items ≡ out.old.items ++ (if first then word.now else 32 ∷ word.now)) }
    ensures err { OnErr result (BeginsWith out.old.items out.new.items) }
{
    if !first {
        write_bytes(out, b" ")?;
    }
    write_bytes(out, word)
}

/// Writes these bytes.
fn write_bytes(out: &mut Vec<u8>, bytes: &[u8]) -> Result<(), NoMemory>
    ensures ok { OnOk result (out.new.items ≡ out.old.items ++ bytes.now) }
    ensures err { OnErr result (BeginsWith out.old.items out.new.items) }
{
    out.extend_from_slice(bytes).map_err(|_| NoMemory)
}

/// Writes the lines of the classes.
///
/// # Errors
///
/// `NoMemory` where an allocation fails.
pub fn write_classes(classes: &[ClassDef], out: &mut Vec<u8>) -> Result<(), NoMemory>
    ensures ok { OnOk result (out.new.items ≡ out.old.items ++ lines_text (map class_words classes.now)) }
    ensures err { OnErr result (BeginsWith out.old.items out.new.items) }
{
    for class in classes {
        write_class(class, out)?;
    }
    Ok(())
}

/// Writes the line of a class.
fn write_class(class: &ClassDef, out: &mut Vec<u8>) -> Result<(), NoMemory>
    ensures ok { OnOk result (out.new.items ≡ out.old.items ++ line_text (class_words class.now)) }
    ensures err { OnErr result (BeginsWith out.old.items out.new.items) }
{
    let mut slots = Buffer::new();
    let words: [&[u8]; 3] = [
        b"class",
        class.name.bytes(),
        slots.format(class.slots).as_bytes(),
    ];
    write_line(out, &words)
}

/// Writes the lines of the declarations of objects.
///
/// # Errors
///
/// `NoMemory` where an allocation fails.
pub fn write_objects(
    classes: &[ClassDef],
    objects: &[ObjectDef],
    out: &mut Vec<u8>,
) -> Result<(), NoMemory>
    ensures ok { OnOk result (out.new.items ≡ out.old.items ++ objects_text classes.now objects.now) }
    ensures err { OnErr result (BeginsWith out.old.items out.new.items) }
{
    for object in objects {
        write_object(classes, object, out)?;
    }
    Ok(())
}

/// Writes the line of a declaration of objects.
fn write_object(classes: &[ClassDef], object: &ObjectDef, out: &mut Vec<u8>) -> Result<(), NoMemory>
    ensures ok { OnOk result (out.new.items ≡ out.old.items ++ line_text (object_words classes.now object.now)) }
    ensures err { OnErr result (BeginsWith out.old.items out.new.items) }
{
    let name = object.name.bytes();
    let class = class_name(classes, object.class);
    if object.array {
        let mut size = Buffer::new();
        let words: [&[u8]; 4] = [b"array", name, class, size.format(object.size).as_bytes()];
        write_line(out, &words)
    } else {
        let words: [&[u8]; 3] = [b"object", name, class];
        write_line(out, &words)
    }
}

/// The name of the class with this number.
fn class_name(classes: &[ClassDef], class: u32) -> &[u8]
    ensures { result.now ≡ class_name classes.now class }
{
    match classes.get(class as usize) {
        None => &[],
        Some(found) => found.name.bytes(),
    }
}

/// Writes the sections of the threads.
fn write_threads(
    classes: &[ClassDef],
    objects: &[ObjectDef],
    threads: &[ThreadDef],
    out: &mut Vec<u8>,
) -> Result<(), NoMemory>
    ensures ok { OnOk result (out.new.items ≡ out.old.items ++ threads_text classes.now objects.now threads.now) }
    ensures err { OnErr result (BeginsWith out.old.items out.new.items) }
{
    for thread in threads {
        write_thread(classes, objects, thread, out)?;
    }
    Ok(())
}

/// Writes the section of a thread.
///
/// # Errors
///
/// `NoMemory` where an allocation fails.
pub fn write_thread(
    classes: &[ClassDef],
    objects: &[ObjectDef],
    thread: &ThreadDef,
    out: &mut Vec<u8>,
) -> Result<(), NoMemory>
    ensures ok { OnOk result (out.new.items ≡ out.old.items
        ++ lines_text (thread_lines classes.now objects.now thread.now)) }
    ensures err { OnErr result (BeginsWith out.old.items out.new.items) }
{
    let words: [&[u8]; 2] = [b"thread", thread.name.bytes()];
    write_line(out, &words)?;
    write_locals(thread.locals.items(), out)?;
    write_code(classes, objects, thread, thread.code.items(), out)
}

/// Writes the lines of the locals.
fn write_locals(locals: &[Name], out: &mut Vec<u8>) -> Result<(), NoMemory>
    ensures ok { OnOk result (out.new.items ≡ out.old.items ++ lines_text (map local_words locals.now)) }
    ensures err { OnErr result (BeginsWith out.old.items out.new.items) }
{
    for local in locals {
        write_local(local, out)?;
    }
    Ok(())
}

/// Writes the line of a local.
fn write_local(local: &Name, out: &mut Vec<u8>) -> Result<(), NoMemory>
    ensures ok { OnOk result (out.new.items ≡ out.old.items ++ line_text (local_words local.now)) }
    ensures err { OnErr result (BeginsWith out.old.items out.new.items) }
{
    let words: [&[u8]; 2] = [b"local", local.bytes()];
    write_line(out, &words)
}

/// Writes these instructions of a thread, from the first on, each after its labels.
fn write_code(
    classes: &[ClassDef],
    objects: &[ObjectDef],
    thread: &ThreadDef,
    code: &[Code],
    out: &mut Vec<u8>,
) -> Result<(), NoMemory>
    ensures ok { OnOk result (out.new.items ≡ out.old.items ++ code_text classes.now objects.now thread.now code.now) }
    ensures err { OnErr result (BeginsWith out.old.items out.new.items) }
{
    for (i, instruction) in code.iter().enumerate() {
        write_step(classes, objects, thread, i + 1, *instruction, out)?;
    }
    Ok(())
}

/// Writes instruction `n` of a thread after its labels.
#[tactic(auto, using(crate::proofs::Written::err_after))]
fn write_step(
    classes: &[ClassDef],
    objects: &[ObjectDef],
    thread: &ThreadDef,
    n: usize,
    code: Code,
    out: &mut Vec<u8>,
) -> Result<(), NoMemory>
    ensures ok { OnOk result (out.new.items ≡ out.old.items ++ step_text classes.now objects.now thread.now n code) }
    ensures err { OnErr result (BeginsWith out.old.items out.new.items) }
{
    write_labels(n, thread.labels.items(), out)?;
    write_instruction(classes, objects, thread, code, out)
}

/// Writes the lines of those of these labels that name instruction `n`.
fn write_labels(n: usize, all: &[LabelDef], out: &mut Vec<u8>) -> Result<(), NoMemory>
    ensures ok { OnOk result (out.new.items ≡ out.old.items ++ labels_text n all.now) }
    ensures err { OnErr result (BeginsWith out.old.items out.new.items) }
{
    for label in all {
        if label.index as usize == n {
            write_label(label, out)?;
        }
    }
    Ok(())
}

/// Writes the line of a label.
fn write_label(label: &LabelDef, out: &mut Vec<u8>) -> Result<(), NoMemory>
    ensures ok { OnOk result (out.new.items ≡ out.old.items ++ line_text (label_words label.now)) }
    ensures err { OnErr result (BeginsWith out.old.items out.new.items) }
{
    let words: [&[u8]; 2] = [b"label", label.name.bytes()];
    write_line(out, &words)
}

/// Writes the line of an instruction.
///
/// # Errors
///
/// `NoMemory` where an allocation fails.
pub fn write_instruction(
    classes: &[ClassDef],
    objects: &[ObjectDef],
    thread: &ThreadDef,
    code: Code,
    out: &mut Vec<u8>,
) -> Result<(), NoMemory>
    ensures ok { OnOk result (out.new.items ≡ out.old.items
        ++ instruction_text classes.now objects.now thread.now code) }
    ensures err { OnErr result (BeginsWith out.old.items out.new.items) }
{
    let locals = thread.locals.items();
    match code {
        Code::Set { x, v } => write_set(locals, x, v, out),
        Code::Add { x, y, z } => write_computation(b"add", locals, x, y, z, out),
        Code::Sub { x, y, z } => write_computation(b"sub", locals, x, y, z, out),
        Code::Mul { x, y, z } => write_computation(b"mul", locals, x, y, z, out),
        Code::Ref { x, n } => write_ref(locals, objects, x, n, out),
        Code::Elem { x, n, i } => write_elem(locals, objects, x, n, i, out),
        Code::Enter { x } => write_on_local(b"enter", locals, x, out),
        Code::Exit { x } => write_on_local(b"exit", locals, x, out),
        Code::Wait { x } => write_on_local(b"wait", locals, x, out),
        Code::Notify { x } => write_on_local(b"notify", locals, x, out),
        Code::NotifyAll { x } => write_on_local(b"notifyall", locals, x, out),
        Code::Get { x, o, k } => write_get(locals, x, o, k, out),
        Code::Put { o, k, x } => write_put(locals, o, k, x, out),
        Code::Hash { x, o } => write_hash(locals, x, o, out),
        Code::New { x, c } => write_new(locals, classes, x, c, out),
        Code::Print { x } => write_on_local(b"print", locals, x, out),
        Code::Jump { l } => write_jump(thread, l, out),
        Code::Jlt { x, y, l } => write_branch(b"jlt", thread, x, y, l, out),
        Code::Jeq { x, y, l } => write_branch(b"jeq", thread, x, y, l, out),
        Code::Dump => write_line(out, &[b"dump"]),
        Code::End => write_line(out, &[b"end"]),
    }
}

/// Writes the line of an instruction with this word that computes local `x` from `y` and `z`.
fn write_computation(
    word: &[u8],
    locals: &[Name],
    x: u32,
    y: u32,
    z: u32,
    out: &mut Vec<u8>,
) -> Result<(), NoMemory>
    ensures ok { OnOk result (out.new.items ≡ out.old.items
        ++ line_text (word.now ∷ local_name locals.now x ∷ local_name locals.now y ∷ local_name locals.now z ∷ [])) }
    ensures err { OnErr result (BeginsWith out.old.items out.new.items) }
{
    let words: [&[u8]; 4] = [
        word,
        local_name(locals, x),
        local_name(locals, y),
        local_name(locals, z),
    ];
    write_line(out, &words)
}

/// Writes the line of an instruction with this word whose only operand is local `x`.
fn write_on_local(word: &[u8], locals: &[Name], x: u32, out: &mut Vec<u8>) -> Result<(), NoMemory>
    ensures ok { OnOk result (out.new.items ≡ out.old.items ++ line_text (word.now ∷ local_name locals.now x ∷ [])) }
    ensures err { OnErr result (BeginsWith out.old.items out.new.items) }
{
    let words: [&[u8]; 2] = [word, local_name(locals, x)];
    write_line(out, &words)
}

/// Writes the line of an instruction with this word that compares two locals and goes on at a label.
fn write_branch(
    word: &[u8],
    thread: &ThreadDef,
    x: u32,
    y: u32,
    l: u32,
    out: &mut Vec<u8>,
) -> Result<(), NoMemory>
    ensures ok { OnOk result (out.new.items ≡ out.old.items
        ++ line_text (word.now ∷ local_name thread.now.locals x ∷ local_name thread.now.locals y ∷ label_name thread.now.labels l ∷ [])) }
    ensures err { OnErr result (BeginsWith out.old.items out.new.items) }
{
    let locals = thread.locals.items();
    let words: [&[u8]; 4] = [
        word,
        local_name(locals, x),
        local_name(locals, y),
        label_name(thread.labels.items(), l),
    ];
    write_line(out, &words)
}

/// Writes the line of a `set`.
fn write_set(locals: &[Name], x: u32, v: i64, out: &mut Vec<u8>) -> Result<(), NoMemory>
    ensures ok { OnOk result (out.new.items ≡ out.old.items
        ++ line_text (codes "set" ∷ local_name locals.now x ∷ signed_decimal v ∷ [])) }
    ensures err { OnErr result (BeginsWith out.old.items out.new.items) }
{
    let mut digits = Buffer::new();
    let words: [&[u8]; 3] = [b"set", local_name(locals, x), digits.format(v).as_bytes()];
    write_line(out, &words)
}

/// Writes the line of a `ref`.
fn write_ref(
    locals: &[Name],
    objects: &[ObjectDef],
    x: u32,
    n: u32,
    out: &mut Vec<u8>,
) -> Result<(), NoMemory>
    ensures ok { OnOk result (out.new.items ≡ out.old.items
        ++ line_text (codes "ref" ∷ local_name locals.now x ∷ object_name objects.now n ∷ [])) }
    ensures err { OnErr result (BeginsWith out.old.items out.new.items) }
{
    let words: [&[u8]; 3] = [b"ref", local_name(locals, x), object_name(objects, n)];
    write_line(out, &words)
}

/// Writes the line of an `elem`.
fn write_elem(
    locals: &[Name],
    objects: &[ObjectDef],
    x: u32,
    n: u32,
    i: u32,
    out: &mut Vec<u8>,
) -> Result<(), NoMemory>
    ensures ok { OnOk result (out.new.items ≡ out.old.items
        ++ line_text (codes "elem" ∷ local_name locals.now x ∷ object_name objects.now n ∷ local_name locals.now i ∷ [])) }
    ensures err { OnErr result (BeginsWith out.old.items out.new.items) }
{
    let words: [&[u8]; 4] = [
        b"elem",
        local_name(locals, x),
        object_name(objects, n),
        local_name(locals, i),
    ];
    write_line(out, &words)
}

/// Writes the line of a `get`.
fn write_get(locals: &[Name], x: u32, o: u32, k: u32, out: &mut Vec<u8>) -> Result<(), NoMemory>
    ensures ok { OnOk result (out.new.items ≡ out.old.items
        ++ line_text (codes "get" ∷ local_name locals.now x ∷ local_name locals.now o ∷ decimal k ∷ [])) }
    ensures err { OnErr result (BeginsWith out.old.items out.new.items) }
{
    let mut digits = Buffer::new();
    let words: [&[u8]; 4] = [
        b"get",
        local_name(locals, x),
        local_name(locals, o),
        digits.format(k).as_bytes(),
    ];
    write_line(out, &words)
}

/// Writes the line of a `put`.
fn write_put(locals: &[Name], o: u32, k: u32, x: u32, out: &mut Vec<u8>) -> Result<(), NoMemory>
    ensures ok { OnOk result (out.new.items ≡ out.old.items
        ++ line_text (codes "put" ∷ local_name locals.now o ∷ decimal k ∷ local_name locals.now x ∷ [])) }
    ensures err { OnErr result (BeginsWith out.old.items out.new.items) }
{
    let mut digits = Buffer::new();
    let words: [&[u8]; 4] = [
        b"put",
        local_name(locals, o),
        digits.format(k).as_bytes(),
        local_name(locals, x),
    ];
    write_line(out, &words)
}

/// Writes the line of a `hash`.
fn write_hash(locals: &[Name], x: u32, o: u32, out: &mut Vec<u8>) -> Result<(), NoMemory>
    ensures ok { OnOk result (out.new.items ≡ out.old.items
        ++ line_text (codes "hash" ∷ local_name locals.now x ∷ local_name locals.now o ∷ [])) }
    ensures err { OnErr result (BeginsWith out.old.items out.new.items) }
{
    let words: [&[u8]; 3] = [b"hash", local_name(locals, x), local_name(locals, o)];
    write_line(out, &words)
}

/// Writes the line of a `new`.
fn write_new(
    locals: &[Name],
    classes: &[ClassDef],
    x: u32,
    c: u32,
    out: &mut Vec<u8>,
) -> Result<(), NoMemory>
    ensures ok { OnOk result (out.new.items ≡ out.old.items
        ++ line_text (codes "new" ∷ local_name locals.now x ∷ class_name classes.now c ∷ [])) }
    ensures err { OnErr result (BeginsWith out.old.items out.new.items) }
{
    let words: [&[u8]; 3] = [b"new", local_name(locals, x), class_name(classes, c)];
    write_line(out, &words)
}

/// Writes the line of a `jump`.
fn write_jump(thread: &ThreadDef, l: u32, out: &mut Vec<u8>) -> Result<(), NoMemory>
    ensures ok { OnOk result (out.new.items ≡ out.old.items
        ++ line_text (codes "jump" ∷ label_name thread.now.labels l ∷ [])) }
    ensures err { OnErr result (BeginsWith out.old.items out.new.items) }
{
    let words: [&[u8]; 2] = [b"jump", label_name(thread.labels.items(), l)];
    write_line(out, &words)
}

/// The name of the local with this number.
pub fn local_name(locals: &[Name], x: u32) -> &[u8]
    ensures { result.now ≡ local_name locals.now x }
{
    match locals.get(x as usize) {
        None => &[],
        Some(name) => name.bytes(),
    }
}

/// The name of the declaration of objects with this number.
fn object_name(objects: &[ObjectDef], n: u32) -> &[u8]
    ensures { result.now ≡ object_name objects.now n }
{
    match objects.get(n as usize) {
        None => &[],
        Some(object) => object.name.bytes(),
    }
}

/// The name of the first label of this instruction.
#[tactic(auto, using(crate::proofs::Written::label_name_step))]
fn label_name(labels: &[LabelDef], l: u32) -> &[u8]
    ensures { result.now ≡ label_name labels.now l }
{
    for label in labels {
        if label.index == l {
            return label.name.bytes();
        }
    }
    &[]
}
