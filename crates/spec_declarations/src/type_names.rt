//! What names of types mean.

ghost use Rattle.std.specs.Prelude.{◌≡◌, ◌+◌, IfOk, List, None, OnOk, Some, ◌∷◌, ◌++◌, bytes_eq, drop, false, if◌then◌else◌, map, option_map};
ghost use Rattle.std.specs.List.{list_all};
ghost use Rattle.syntax_parser.specs.Tree as t;
ghost use Rattle.syntax_parser.specs.View as view;
ghost use Rattle.spec_ir.specs.Answers.{Agrees};
ghost use Rattle.spec_declarations.specs.TypeNames.{declared_named, is_digit, is_word_name, numerals, some_digits, type_named, types_from, types_of, word_named};

use spec_ir::{SpecError, Ty, number_text, same};
use std::alloc::{AllocError, Global};
use std::marker::Model;
use support_lists::pushed;
use syntax_lexer::Text;
use syntax_parser::tree::{DataDecl, Item, MapDecl};

/// What the name of a type means: a type, `INT` and digits that are no width, or nothing.
#[derive(Clone, Copy, Drop)]
pub enum Meaning {
    Known(Ty),
    BadWidth,
    Unknown,
}

/// The names of types. Contracts see the declared types with their names.
#[derive(Drop)]
pub struct TypeNames<'a> {
    widths: Vec<Text>,
    types: Vec<(&'a Text, Ty)>,
}

impl<'a> Model for TypeNames<'a> {
    ghost use Rattle.spec_declarations.specs.TypeNames.{TypeTable};

    ghost Value = { TypeTable };

    ghost use Rattle.spec_declarations.specs.Views.{table, IsReady};

    ghost view = { table };

    ghost invariant = { IsReady };
}

impl<'a> TypeNames<'a> {
    /// The names of types that items declare.
    pub fn new(alloc: Global, items: &'a [Item]) -> Result<TypeNames<'a>, SpecError>
        ensures answer { Agrees result None }
        ensures types { IfOk result (λ r. r ≡ types_of (map view.item items.now)) }
    {
        let widths = widths(alloc)?;
        let types = declared_types(alloc, items)?;
        Ok(TypeNames { widths, types })
    }

    /// What a name means as that of a type.
    #[tactic(auto, unfolding(crate::specs::TypeNames::type_named))]
    pub fn meaning(&self, name: &Text) -> Meaning
        ensures { result ≡ type_named self.now name.now }
    {
        if name.as_str() == "BOOL" {
            return Meaning::Known(Ty::Bool);
        }
        match digits_of_word(name) {
            Some(digits) => word_meaning(&self.widths, digits),
            None => declared_meaning(&self.types, name),
        }
    }
}

/// The numerals of the widths 1 to 64.
fn widths(alloc: Global) -> Result<Vec<Text>, AllocError>
    ensures { IfOk result (λ r. r.items ≡ numerals 1 64) }
{
    let mut texts = Vec::new(alloc);
    for w in 1..65u32 {
        texts = pushed(texts, number_text(alloc, u64::from(w)))?;
    }
    Ok(texts)
}

/// The declared types with their names.
fn declared_types<'a>(alloc: Global, items: &'a [Item]) -> Result<Vec<(&'a Text, Ty)>, SpecError>
    ensures answer { Agrees result None }
    ensures types { IfOk result (λ r. map (λ t. (t.0.now, t.1)) r.items ≡ types_of (map view.item items.now)) }
{
    let mut before = Declared {
        types: Vec::new(alloc),
        datas: 0,
        maps: 0,
    };
    for item in items {
        declare(&mut before, item)?;
    }
    Ok(before.types)
}

/// Declared types with their names, and how many are datatypes and map types.
#[derive(Drop)]
struct Declared<'a> {
    types: Vec<(&'a Text, Ty)>,
    datas: u32,
    maps: u32,
}

/// An item declares a type behind those before it.
fn declare<'a>(before: &mut Declared<'a>, item: &'a Item) -> Result<(), SpecError>
    ensures answer { Agrees result None }
    ensures types { OnOk result ((rest : List t.Item) → map (λ t. (t.0.now, t.1)) before.new.types.items ++ types_from before.new.datas before.new.maps rest
        ≡ map (λ t. (t.0.now, t.1)) before.old.types.items ++ types_from before.old.datas before.old.maps (view.item item.now ∷ rest)) }
{
    match item {
        Item::Data(d) => declare_data(before, d),
        Item::Map(m) => declare_map(before, m),
        Item::Fun(_) => Ok(()),
        Item::Decode(_) => Ok(()),
    }
}

/// A datatype joins the types before it.
#[tactic(auto, using(std::proofs::lemmas::List::append_assoc, std::proofs::lemmas::List::map_push))]
fn declare_data<'a>(before: &mut Declared<'a>, decl: &'a DataDecl) -> Result<(), SpecError>
    ensures answer { Agrees result None }
    ensures types { OnOk result ((rest : List t.Item) → map (λ t. (t.0.now, t.1)) before.new.types.items ++ types_from before.new.datas before.new.maps rest
        ≡ map (λ t. (t.0.now, t.1)) before.old.types.items ++ types_from before.old.datas before.old.maps (t.datatype (view.datatype decl.now) ∷ rest)) }
{
    before
        .types
        .push((&decl.name.text, Ty::Data(before.datas)))?;
    before.datas = next(before.datas)?;
    Ok(())
}

/// A map type joins the types before it.
#[tactic(auto, using(std::proofs::lemmas::List::append_assoc, std::proofs::lemmas::List::map_push))]
fn declare_map<'a>(before: &mut Declared<'a>, decl: &'a MapDecl) -> Result<(), SpecError>
    ensures answer { Agrees result None }
    ensures types { OnOk result ((rest : List t.Item) → map (λ t. (t.0.now, t.1)) before.new.types.items ++ types_from before.new.datas before.new.maps rest
        ≡ map (λ t. (t.0.now, t.1)) before.old.types.items ++ types_from before.old.datas before.old.maps (t.map_type decl.now ∷ rest)) }
{
    before.types.push((&decl.name.text, Ty::Map(before.maps)))?;
    before.maps = next(before.maps)?;
    Ok(())
}

/// The next number of 32 bits. As many things as that take more memory than there is.
fn next(n: u32) -> Result<u32, SpecError>
    ensures answer { Agrees result None }
    ensures next { IfOk result (λ m. m ≡ n + 1) }
{
    match n.checked_add(1) {
        Some(m) => Ok(m),
        None => Err(SpecError::NoMemory),
    }
}

/// The digits behind `INT`, where a name is that of a word.
fn digits_of_word(name: &Text) -> Option<&[u8]>
    ensures { option_map (λ d. d.now) result ≡ (if is_word_name name.now then Some (drop 3 name.now) else None) }
{
    let bytes = name.as_str().as_bytes();
    if bytes.len() < 3 {
        return None;
    }
    let (front, digits) = bytes.split_at(3);
    if front == b"INT".as_slice() && are_digits(digits) {
        Some(digits)
    } else {
        None
    }
}

/// Whether there are digits and nothing else.
fn are_digits(bytes: &[u8]) -> bool
    ensures { result ≡ some_digits bytes.now }
{
    bytes.len() > 0 && all_digits(bytes)
}

/// Whether all bytes are digits.
fn all_digits(bytes: &[u8]) -> bool
    ensures { result ≡ list_all is_digit bytes.now }
{
    for b in bytes {
        if !is_digit(*b) {
            return false;
        }
    }
    true
}

/// Whether a byte is a decimal digit.
fn is_digit(b: u8) -> bool
    ensures { result ≡ is_digit b }
{
    48 <= b && b <= 57
}

/// Whether two lists of bytes are the same.
fn same_bytes(a: &[u8], b: &[u8]) -> bool
    ensures { result ≡ bytes_eq a.now b.now }
{
    a == b
}

/// The word of the width whose numeral the digits are.
fn word_meaning(widths: &[Text], digits: &[u8]) -> Meaning
    requires { widths.now ≡ numerals 1 64 }
    ensures { result ≡ word_named digits.now }
{
    let mut w = 1;
    for width in widths {
        if same_bytes(width.as_str().as_bytes(), digits) {
            return Meaning::Known(Ty::Word(w));
        }
        w += 1;
    }
    Meaning::BadWidth
}

/// The first declared type of a name.
fn declared_meaning(types: &[(&Text, Ty)], name: &Text) -> Meaning
    ensures { result ≡ declared_named (map (λ t. (t.0.now, t.1)) types.now) name.now }
{
    for (other, ty) in types {
        if same(other, name) {
            return Meaning::Known(*ty);
        }
    }
    Meaning::Unknown
}
