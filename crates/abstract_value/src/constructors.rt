//! The constructors of a datatype, of which some are present, with their fields.

ghost use Rattle.std.specs.Prelude.{◌≡◌, ◌<◌, ◌++◌, ◌∷◌, [], map, length, get_or, None, option_map, IfOk, IfSome, IsOkAnd, OnOk};
ghost use Rattle.abstract_value.specs.Constructors.{AreOnly, AreWithin, entry, fields_in, IsOnly, listed, only, spread};

use std::alloc::{AllocError as NoMemory, Global};
use std::rc::Rc;
use support_lists::pushed;

/// A constructor that is present.
#[derive(Drop)]
pub(crate) struct Constructor<T> {
    /// Its number, from 0 on, in declared order.
    pub(crate) number: usize,
    /// Its fields, which copies share.
    pub(crate) fields: Rc<Vec<T>>,
}

/// The constructors that are present.
#[derive(Drop)]
pub(crate) enum Present<T> {
    /// One alone: the rule.
    One(Constructor<T>),
    /// None or several.
    Several(Vec<Constructor<T>>),
}

/// The constructors of a datatype, of which some are present, with their fields.
///
/// Contracts see a list with a place for each constructor, in declared order, as a copy of `Some` alone of two is
/// `[missing, [fields]]`. What is held is the constructors that are present, so one of a hundred takes the room of one.
#[derive(Drop)]
pub struct Constructors<T> {
    /// How many the datatype has.
    pub(crate) count: usize,
    /// Those that are present.
    pub(crate) present: Present<T>,
}

impl<T> Constructors<T> {
    /// How many the datatype has.
    pub fn len(&self) -> usize
        ensures { result ≡ length (spread self.now) }
    {
        self.count
    }

    /// The fields of a constructor; nothing where it is missing.
    pub fn fields(&self, number: usize) -> Option<&[T]>
        ensures { option_map (λ f. f.now) result ≡ get_or (spread self.now) number None }
    {
        match self.shared(number) {
            Some(fields) => Some(fields),
            None => None,
        }
    }

    /// The fields of a constructor, to be shared; nothing where it is missing.
    pub fn shared(&self, number: usize) -> Option<&Rc<Vec<T>>>
        ensures { option_map (λ f. f.now.value.items) result ≡ get_or (spread self.now) number None }
    {
        if number >= self.count {
            return None;
        }
        match &self.present {
            Present::One(one) => fields_if(one, number),
            Present::Several(several) => first_of(several, number),
        }
    }
}

impl<T> Constructors<T> {
    /// The number and the fields of the constructor that is present alone; nothing where it is held that several may be.
    pub fn alone(&self) -> Option<(usize, &[T])>
        ensures { IfSome result (λ a. IsOnly (spread self.now) a.0 a.1.now) }
    {
        match &self.present {
            Present::One(one) if one.number < self.count => Some((one.number, &one.fields)),
            _ => None,
        }
    }
}

/// The number and the fields of the constructor that is present alone in two values of one datatype.
pub fn both_alone<'a, T, U>(
    xs: &'a Constructors<T>,
    ys: &'a Constructors<U>,
) -> Option<(usize, &'a [T], &'a [U])>
    ensures { IfSome result (λ b. AreOnly (spread xs.now) (spread ys.now) b.0 b.1.now b.2.now) }
{
    let (number, fields) = xs.alone()?;
    let (other, others) = ys.alone()?;
    if number == other && xs.len() == ys.len() {
        Some((number, fields, others))
    } else {
        None
    }
}

/// The fields, where it is the constructor of this number.
fn fields_if<T>(one: &Constructor<T>, number: usize) -> Option<&Rc<Vec<T>>>
    ensures { option_map (λ f. f.now.value.items) result ≡ fields_in (entry one.now ∷ []) number }
{
    if one.number == number {
        Some(&one.fields)
    } else {
        None
    }
}

/// The fields of the first of this number.
fn first_of<T>(several: &[Constructor<T>], number: usize) -> Option<&Rc<Vec<T>>>
    ensures { option_map (λ f. f.now.value.items) result ≡ fields_in (map entry several.now) number }
{
    for one in several {
        if one.number == number {
            return Some(&one.fields);
        }
    }
    None
}

impl<T: Drop> Constructors<T> {
    /// Of so many constructors one is present, with these fields.
    pub fn one(
        alloc: Global,
        count: usize,
        number: usize,
        fields: Vec<T>,
    ) -> Result<Constructors<T>, NoMemory>
        requires { number < count }
        ensures value { IfOk result (λ r. spread r ≡ only count number fields.items) }
        ensures within { IfOk result AreWithin }
    {
        let fields = shared_list(alloc, fields)?;
        Ok(Constructors {
            count,
            present: Present::One(Constructor { number, fields }),
        })
    }

    /// No constructor.
    pub fn none(alloc: Global) -> Constructors<T>
        ensures value { spread result ≡ [] }
        ensures within { AreWithin result }
    {
        Constructors {
            count: 0,
            present: Present::Several(Vec::new(alloc)),
        }
    }

    /// One more behind these, present or not, if there is one.
    pub fn grown(
        self,
        alloc: Global,
        next: Result<Option<Rc<Vec<T>>>, NoMemory>,
    ) -> Result<Constructors<T>, NoMemory>
        requires { AreWithin self }
        ensures value { IfOk result (λ r. IsOkAnd next (λ n. spread r ≡ spread self ++ option_map (λ f. f.value.items) n ∷ [])) }
        ensures within { IfOk result AreWithin }
    {
        match next {
            Ok(next) => self.with(alloc, next),
            Err(error) => Err(error),
        }
    }

    /// One more behind these, present or not.
    fn with(self, alloc: Global, next: Option<Rc<Vec<T>>>) -> Result<Constructors<T>, NoMemory>
        requires { AreWithin self }
        ensures value { IfOk result (λ r. spread r ≡ spread self ++ option_map (λ f. f.value.items) next ∷ []) }
        ensures within { IfOk result AreWithin }
    {
        let Constructors { count, present } = self;
        if count == usize::MAX {
            return Err(NoMemory);
        }
        match next {
            Some(fields) => {
                let next = Constructor {
                    number: count,
                    fields,
                };
                match and_one(alloc, present, next) {
                    Ok(present) => Ok(Constructors {
                        count: count + 1,
                        present,
                    }),
                    Err(error) => Err(error),
                }
            }
            None => Ok(Constructors {
                count: count + 1,
                present,
            }),
        }
    }

    /// The same once more, with the same fields.
    pub fn copy(&self, alloc: Global) -> Result<Constructors<T>, NoMemory>
        ensures { IfOk result (λ r. spread r ≡ spread self.now) }
    {
        match copy_present(alloc, &self.present) {
            Ok(present) => Ok(Constructors {
                count: self.count,
                present,
            }),
            Err(error) => Err(error),
        }
    }
}

/// Puts an item behind a list. After an error the list is open.
pub fn put<T: Drop>(list: &mut Vec<T>, item: T) -> Result<(), NoMemory>
    ensures items { OnOk result (list.new.items ≡ list.old.items ++ item ∷ []) }
{
    match list.push(item) {
        Ok(()) => Ok(()),
        Err(_failed) => Err(NoMemory),
    }
}

/// A list that can be shared.
pub fn shared_list<T: Drop>(alloc: Global, list: Vec<T>) -> Result<Rc<Vec<T>>, NoMemory>
    ensures { IfOk result (λ r. r.value.items ≡ list.items) }
{
    match Rc::new(alloc, list) {
        Ok(shared) => Ok(shared),
        Err(_failed) => Err(NoMemory),
    }
}

/// The list of the same owner once more.
pub fn share<T: Drop>(list: &Rc<Vec<T>>) -> Result<Rc<Vec<T>>, NoMemory>
    ensures { IfOk result (λ r. r.value.items ≡ list.now.value.items) }
{
    list.clone()
}

/// These and one more.
fn and_one<T: Drop>(
    alloc: Global,
    present: Present<T>,
    next: Constructor<T>,
) -> Result<Present<T>, NoMemory>
    ensures { IfOk result (λ r. listed r ≡ listed present ++ entry next ∷ []) }
{
    match present {
        Present::One(first) => several(pushed(pushed(Vec::new(alloc), Ok(first))?, Ok(next))),
        Present::Several(list) => behind(list, next),
    }
}

/// A list and one more.
fn behind<T: Drop>(list: Vec<Constructor<T>>, next: Constructor<T>) -> Result<Present<T>, NoMemory>
    ensures { IfOk result (λ r. listed r ≡ map entry list.items ++ entry next ∷ []) }
{
    if list.is_empty() {
        return Ok(Present::One(next));
    }
    several(pushed(list, Ok(next)))
}

/// Several, where they were made.
fn several<T: Drop>(list: Result<Vec<Constructor<T>>, NoMemory>) -> Result<Present<T>, NoMemory>
    ensures { IfOk result (λ r. IsOkAnd list (λ l. listed r ≡ map entry l.items)) }
{
    match list {
        Ok(list) => Ok(Present::Several(list)),
        Err(error) => Err(error),
    }
}

/// The same once more.
fn copy_present<T: Drop>(alloc: Global, present: &Present<T>) -> Result<Present<T>, NoMemory>
    ensures { IfOk result (λ r. listed r ≡ listed present.now) }
{
    match present {
        Present::One(one) => match copy_one(one) {
            Ok(one) => Ok(Present::One(one)),
            Err(error) => Err(error),
        },
        Present::Several(list) => several(copy_several(alloc, list)),
    }
}

/// A constructor with the same fields.
fn copy_one<T: Drop>(one: &Constructor<T>) -> Result<Constructor<T>, NoMemory>
    ensures { IfOk result (λ r. entry r ≡ entry one.now) }
{
    Ok(Constructor {
        number: one.number,
        fields: share(&one.fields)?,
    })
}

/// Constructors with the same fields.
fn copy_several<T: Drop>(
    alloc: Global,
    several: &[Constructor<T>],
) -> Result<Vec<Constructor<T>>, NoMemory>
    ensures { IfOk result (λ r. map entry r.items ≡ map entry several.now) }
{
    let mut out = Vec::with_capacity(alloc, several.len())?;
    for one in several {
        out = pushed(out, copy_one(one))?;
    }
    Ok(out)
}
