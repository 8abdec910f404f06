//! Cases worked out by hand.

use super::concrete::{declared, of_map, of_some};
use super::values::{byte, optional, word};
use abstract_value::AbstractValue;
use base_defuse::DefUse;
use base_kset::KSet;
use base_product::{Pair, Paired};
use base_trait::Stamp;
use spec_ir::Ty;
use std::test::Fail;

type Sets = KSet<16>;

type Both = Paired<KSet<16>, DefUse>;

#[test]
fn joins(rt: HostRuntime) -> Result<(), Fail> {
    let alloc = rt.alloc();
    let none = optional::<Sets>(alloc, &(), true, None)?;
    let one = optional::<Sets>(alloc, &(), false, Some(&[1]))?;
    let two = optional::<Sets>(alloc, &(), false, Some(&[2]))?;
    let either = none.join(alloc, &(), &one)?;
    let wanted = optional::<Sets>(alloc, &(), true, Some(&[1]))?;
    assert!(rt; either == wanted);
    let some = one.join(alloc, &(), &two)?;
    let wanted = optional::<Sets>(alloc, &(), false, Some(&[1, 2]))?;
    assert!(rt; some == wanted);
    Ok(())
}

#[test]
fn widenings(rt: HostRuntime) -> Result<(), Fail> {
    let alloc = rt.alloc();
    let none = optional::<Sets>(alloc, &(), true, None)?;
    let one = optional::<Sets>(alloc, &(), false, Some(&[1]))?;
    let two = optional::<Sets>(alloc, &(), false, Some(&[2]))?;
    let either = optional::<Sets>(alloc, &(), true, Some(&[1]))?;
    let wide = either.widen(alloc, &(), &two)?;
    let wanted = optional::<Sets>(alloc, &(), true, Some(&[]))?;
    assert!(rt; wide == wanted);
    let wide = one.widen(alloc, &(), &none)?;
    assert!(rt; wide == either);
    Ok(())
}

#[test]
fn copies_and_equality(rt: HostRuntime) -> Result<(), Fail> {
    let alloc = rt.alloc();
    let one = optional::<Sets>(alloc, &(), false, Some(&[1]))?;
    let either = optional::<Sets>(alloc, &(), true, Some(&[1]))?;
    let same = either.widen(alloc, &(), &one)?;
    assert!(rt; same == either);
    assert!(rt; same.same(&either));
    assert!(rt; !either.same(&one));
    let copy = either.copy(alloc, &())?;
    assert!(rt; copy == either);
    Ok(())
}

#[test]
fn absorption_and_types(rt: HostRuntime) -> Result<(), Fail> {
    let alloc = rt.alloc();
    let none = optional::<Sets>(alloc, &(), true, None)?;
    let one = optional::<Sets>(alloc, &(), false, Some(&[1]))?;
    let both = optional::<Sets>(alloc, &(), true, Some(&[1, 2]))?;
    let number = byte::<Sets>(alloc, &(), &[1])?;
    assert!(rt; both.absorbs(&(), &one) && both.absorbs(&(), &none));
    assert!(rt; !one.absorbs(&(), &both) && !one.absorbs(&(), &none));
    assert!(rt; !both.absorbs(&(), &number) && !number.absorbs(&(), &both));
    let spec = declared(alloc)?;
    assert!(rt; both.has_type(&spec, Ty::Data(0)) && one.has_type(&spec, Ty::Data(0)));
    assert!(rt; !both.has_type(&spec, Ty::Data(1)) && !both.has_type(&spec, Ty::Word(8)));
    assert!(rt; number.has_type(&spec, Ty::Word(8)) && !number.has_type(&spec, Ty::Word(9)));
    assert_eq!(rt; number.rank(&()), 1);
    let any = byte::<Sets>(alloc, &(), &[])?;
    assert_eq!(rt; any.rank(&()), 0);
    Ok(())
}

#[test]
fn concrete_values(rt: HostRuntime) -> Result<(), Fail> {
    let alloc = rt.alloc();
    let spec = declared(alloc)?;
    let some = of_some::<Sets>(alloc, &(), &spec, 3)?;
    let wanted = optional::<Sets>(alloc, &(), false, Some(&[3]))?;
    assert!(rt; some == wanted);
    let map = of_map::<Both>(alloc, &Pair((), ()), &spec, 9)?;
    assert!(rt; map.has_type(&spec, Ty::Map(0)));
    let other = of_map::<Both>(alloc, &Pair((), ()), &spec, 8)?;
    assert!(rt; map != other);
    let both = map.join(alloc, &Pair((), ()), &other)?;
    assert!(rt; both.absorbs(&Pair((), ()), &map) && !map.absorbs(&Pair((), ()), &both));
    let AbstractValue::Map { map: _map, m } = &both else {
        return Err(Fail::new("no map"));
    };
    assert_eq!(rt; m.listed(), 1);
    assert_eq!(rt; m.key_at(0), 4);
    let wanted = word::<Both>(alloc, &Pair((), ()), &[8, 9])?;
    let (number, note) = m.cell_at(0);
    assert!(rt; *number == wanted);
    assert_eq!(rt; note.1.items(), &[Stamp::At(16)][..]);
    Ok(())
}
