//! Machines by the fields of their states.

use spec_ir::{Case, Data, Machine, MapType, Spec, Ty};
use std::alloc::{AllocError, Global};
use syntax_lexer::Text;

/// The fields of states, with the types that they name.
#[derive(Drop)]
struct Fields {
    alloc: Global,
    fields: Vec<(Text, Ty)>,
    datas: Vec<Data>,
    maps: Vec<MapType>,
}

/// A count as the number of the next.
fn number(count: usize) -> u32 {
    u32::try_from(count).unwrap_or(0)
}

impl Fields {
    fn new(alloc: Global) -> Result<Fields, AllocError> {
        let mut fields = Fields {
            alloc,
            fields: Vec::new(alloc),
            datas: Vec::new(alloc),
            maps: Vec::new(alloc),
        };
        fields.word("pc", 32)?;
        Ok(fields)
    }

    fn word(&mut self, name: &str, width: u32) -> Result<(), AllocError> {
        let name = Text::from_str(self.alloc, name)?;
        self.fields.push((name, Ty::Word(width)))?;
        Ok(())
    }

    fn map(&mut self, name: &str, key: Ty, width: u32, default: u64) -> Result<(), AllocError> {
        let ty = Ty::Map(number(self.maps.len()));
        self.maps.push(MapType {
            name: Text::from_str(self.alloc, name)?,
            key,
            width,
            default,
        })?;
        let name = Text::from_str(self.alloc, name)?;
        self.fields.push((name, ty))?;
        Ok(())
    }

    fn keyed(&mut self, name: &str, keys: &[&str], width: u32) -> Result<(), AllocError> {
        let ty = Ty::Data(number(self.datas.len()));
        let mut cases = Vec::new(self.alloc);
        for key in keys {
            cases.push(Case {
                name: Text::from_str(self.alloc, key)?,
                fields: Vec::new(self.alloc),
            })?;
        }
        let of = Text::from_str(self.alloc, name)?;
        self.datas.push(Data { name: of, cases })?;
        self.map(name, ty, width, 0)
    }

    fn specification(self) -> Result<Spec, AllocError> {
        let Fields {
            alloc,
            fields,
            mut datas,
            maps,
        } = self;
        let state = number(datas.len());
        let mut cases = Vec::new(alloc);
        cases.push(Case {
            name: Text::from_str(alloc, "State")?,
            fields,
        })?;
        let name = Text::from_str(alloc, "State")?;
        datas.push(Data { name, cases })?;
        Ok(Spec {
            datas,
            maps,
            funs: Vec::new(alloc),
            rows: Vec::new(alloc),
            machine: Some(Machine {
                instr: 0,
                state,
                interp: 0,
            }),
        })
    }
}

/// Four registers.
pub(crate) fn mini(alloc: Global) -> Result<Spec, AllocError> {
    let mut fields = Fields::new(alloc)?;
    fields.map("r", Ty::Word(2), 32, 0)?;
    fields.specification()
}

/// The state of the PowerPC machine.
pub(crate) fn powerpc(alloc: Global) -> Result<Spec, AllocError> {
    let mut fields = Fields::new(alloc)?;
    fields.map("gpr", Ty::Word(5), 32, 0)?;
    fields.map("cr", Ty::Word(5), 1, 0)?;
    fields.keyed("xer", &["SO", "OV", "CA"], 1)?;
    fields.keyed("spr", &["LR", "CTR", "XCOUNT"], 32)?;
    fields.map("mem", Ty::Word(32), 8, 0)?;
    fields.specification()
}

/// Words of 1, 6 and 64 bits, keys of 8 and 9 bits, and a default that isn't 0.
pub(crate) fn wide(alloc: Global) -> Result<Spec, AllocError> {
    let mut fields = Fields::new(alloc)?;
    fields.word("bit", 1)?;
    fields.word("six", 6)?;
    fields.word("use", 64)?;
    fields.map("near", Ty::Word(8), 8, 7)?;
    fields.map("far", Ty::Word(9), 64, 1)?;
    fields.keyed("_k", &["A", "B"], 8)?;
    fields.specification()
}
