//! What a specification declares.

use crate::ty::Ty;
use syntax_lexer::Text;

/// A constructor, with the names and types of its fields.
#[derive(Drop)]
pub struct Case {
    pub name: Text,
    pub fields: Vec<(Text, Ty)>,
}

/// A datatype.
#[derive(Drop)]
pub struct Data {
    pub name: Text,
    pub cases: Vec<Case>,
}

/// A map type: its cells hold words of `width` bits, `default` where none is put.
#[derive(Drop)]
pub struct MapType {
    pub name: Text,
    pub key: Ty,
    pub width: u32,
    pub default: u64,
}

/// A function's name, the types of its parameters and its result.
#[derive(Drop)]
pub struct Signature {
    pub name: Text,
    pub params: Vec<Ty>,
    pub result: Ty,
}

/// All that terms may name.
#[derive(Drop)]
pub struct Declarations {
    pub datas: Vec<Data>,
    pub maps: Vec<MapType>,
    pub funs: Vec<Signature>,
}
