//! Categories and classes as texts (RFC 9485 section 3).

ghost use Rattle.std.specs.Prelude.{◌≡◌};
ghost use Rattle.jp_reading.specs.Outcome.{took};
ghost use Rattle.jp_reading.specs.Views.{Gives, with_prefix};
ghost use Rattle.jp_iregexp.specs.Tree.{class};
ghost use Rattle.jp_iregexp.specs.Private.Reading.{category_at, code_at, second_at, class_at};
ghost use Rattle.jp_iregexp.specs.Private.Reading.{negation_at, all_elements_at, elements_at};
ghost use Rattle.jp_iregexp.specs.Private.Reading.{first_at, last_at, hyphen_at, element_at};
ghost use Rattle.jp_iregexp.specs.Private.Reading.{range_at, is_at_category};

use crate::category::Category;
use crate::characters::{Characters, character};
use crate::class::{CharClass, ClassElement};
use jp_reading::{Reader, Stop};
use std::alloc::AllocError;

/// What stands after `\` for a category or for all characters outside it (charClassEsc).
#[tactic(auto, unfolding(crate::specs::Private::Reading::category_at))]
pub(crate) fn category(reader: &mut Reader) -> Result<ClassElement, Stop>
    ensures { Gives (λ x. x) result reader.new (category_at reader.old) }
{
    let sign = reader.take_one_of(Characters::CategorySign)?;
    reader.expect('{')?;
    let code = code(reader)?;
    reader.expect('}')?;
    Ok(ClassElement::Category {
        code,
        negated: sign == 'P',
    })
}

/// The code of a category, up to the brace after it.
#[tactic(auto, unfolding(crate::specs::Private::Reading::code_at))]
fn code(reader: &mut Reader) -> Result<Category, Stop>
    ensures { Gives (λ x. x) result reader.new (code_at reader.old) }
{
    let first = reader.take_one_of(Characters::Letter)?;
    let second = second_letter(reader)?;
    match Category::of_letters(first, second) {
        Some(code) => Ok(code),
        None => Err(Stop::Syntax(reader.place())),
    }
}

/// The second letter of a category's code; None where the code has one letter, and its `}` stands next.
fn second_letter(reader: &mut Reader) -> Result<Option<char>, Stop>
    ensures { Gives (λ x. x) result reader.new (second_at reader.old) }
{
    if reader.is_at('}') {
        return Ok(None);
    }
    let letter = reader.take_one_of(Characters::Letter)?;
    Ok(Some(letter))
}

/// A class (charClassExpr).
#[tactic(auto, unfolding(crate::specs::Private::Reading::class_at))]
pub(crate) fn class(reader: &mut Reader) -> Result<CharClass, Stop>
    ensures { Gives (λ c. class c.negated c.elements.items) result reader.new (class_at reader.old) }
{
    reader.expect('[')?;
    let negated = negation(reader);
    let elements = all_elements(reader)?;
    reader.expect(']')?;
    Ok(CharClass { negated, elements })
}

/// Whether a class is negated: a `^` right after `[` always negates, and is taken.
fn negation(reader: &mut Reader) -> bool
    ensures { negation_at reader.old ≡ took result reader.new }
{
    let is_negated = reader.is_at('^');
    if is_negated {
        reader.bump();
    }
    is_negated
}

/// The elements of a class: a `-` may be the first or the last.
#[tactic(auto, unfolding(crate::specs::Private::Reading::all_elements_at))]
fn all_elements(reader: &mut Reader) -> Result<Vec<ClassElement>, Stop>
    ensures { Gives (λ v. v.items) result reader.new (all_elements_at reader.old) }
{
    let first = first_element(reader)?;
    let mut items = Vec::new(reader.alloc());
    items.push(first).map_err(AllocError::from)?;
    let items = elements(reader, items)?;
    last_element(reader, items)
}

/// These elements, and element after element as long as another begins.
fn elements(reader: &mut Reader, mut items: Vec<ClassElement>) -> Result<Vec<ClassElement>, Stop>
    ensures { Gives (λ v. v.items) result reader.new
        (with_prefix items.items (elements_at reader.old)) }
{
    'elements: while reader.is_at_one_of(Characters::Element) {
        let next = element(reader)?;
        items.push(next).map_err(AllocError::from)?;
    }
    Ok(items)
}

/// These elements, and a `-` that ends the class.
fn last_element(
    reader: &mut Reader,
    mut items: Vec<ClassElement>,
) -> Result<Vec<ClassElement>, Stop>
    ensures { Gives (λ v. v.items) result reader.new (last_at items.items reader.old) }
{
    if reader.is_at('-') {
        let last = hyphen(reader)?;
        items.push(last).map_err(AllocError::from)?;
    }
    Ok(items)
}

/// The first element of a class, which may be a `-` that stands for itself.
fn first_element(reader: &mut Reader) -> Result<ClassElement, Stop>
    ensures { Gives (λ x. x) result reader.new (first_at reader.old) }
{
    if reader.is_at('-') {
        hyphen(reader)
    } else {
        element(reader)
    }
}

/// A `-` that stands for itself, as the first or the last element of a class.
fn hyphen(reader: &mut Reader) -> Result<ClassElement, Stop>
    ensures { Gives (λ x. x) result reader.new (hyphen_at reader.old) }
{
    reader.expect('-')?;
    Ok(ClassElement::Range('-', '-'))
}

/// An element of a class: a character, a range or a category (CCE1, charClassEsc).
#[tactic(auto, unfolding(crate::specs::Private::Reading::element_at))]
fn element(reader: &mut Reader) -> Result<ClassElement, Stop>
    ensures { Gives (λ x. x) result reader.new (element_at reader.old) }
{
    if is_at_category(reader) {
        reader.bump();
        return category(reader);
    }
    let first = character(reader)?;
    range(reader, first)
}

/// Whether a category stands next: `\p` or `\P`.
fn is_at_category(reader: &Reader) -> bool
    ensures { result ≡ is_at_category reader.now }
{
    reader.is_at('\\') && matches!(reader.peek_second(), Some('p' | 'P'))
}

/// The range that begins with a character: up to the one after a `-`, or, where the `-` ends the
/// class or stands not there, that character alone.
#[tactic(auto, unfolding(crate::specs::Private::Reading::range_at))]
fn range(reader: &mut Reader, first: char) -> Result<ClassElement, Stop>
    ensures { Gives (λ x. x) result reader.new (range_at first reader.old) }
{
    if !reader.is_at('-') || reader.peek_second() == Some(']') {
        return Ok(ClassElement::Range(first, first));
    }
    reader.bump();
    let last = character(reader)?;
    if last < first {
        return Err(Stop::Syntax(reader.place()));
    }
    Ok(ClassElement::Range(first, last))
}
