//! The codes of general categories (RFC 9485 section 3).

ghost use Rattle.std.specs.Prelude.{◌≡◌};
ghost use Rattle.jp_iregexp.specs.Category.{in_category, stands_for};
ghost use Rattle.jp_iregexp.specs.Codes.{letters};
ghost use Rattle.jp_iregexp.specs.Private.CodeReading.{code_of, is_pair, pair};

use unicode::properties::{GeneralCategory, GeneralCategoryGroup};

/// A code of `\p{..}`: one general category of Unicode by its two letters, or by one letter all
/// that begin with it (RFC 9485 section 3).
#[derive(Clone, Copy, Debug, PartialEq, Eq)]
pub enum Category {
    L,
    Ll,
    Lm,
    Lo,
    Lt,
    Lu,
    M,
    Mc,
    Me,
    Mn,
    N,
    Nd,
    Nl,
    No,
    P,
    Pc,
    Pd,
    Pe,
    Pf,
    Pi,
    Po,
    Ps,
    Z,
    Zl,
    Zp,
    Zs,
    S,
    Sc,
    Sk,
    Sm,
    So,
    C,
    Cc,
    Cf,
    Cn,
    Co,
}

impl Category {
    // All codes.
    const ALL: [Category; 36] = [
        Category::L,
        Category::Ll,
        Category::Lm,
        Category::Lo,
        Category::Lt,
        Category::Lu,
        Category::M,
        Category::Mc,
        Category::Me,
        Category::Mn,
        Category::N,
        Category::Nd,
        Category::Nl,
        Category::No,
        Category::P,
        Category::Pc,
        Category::Pd,
        Category::Pe,
        Category::Pf,
        Category::Pi,
        Category::Po,
        Category::Ps,
        Category::Z,
        Category::Zl,
        Category::Zp,
        Category::Zs,
        Category::S,
        Category::Sc,
        Category::Sk,
        Category::Sm,
        Category::So,
        Category::C,
        Category::Cc,
        Category::Cf,
        Category::Cn,
        Category::Co,
    ];

    /// Whether the code holds the character, by the general categories of `unicode`.
    #[tactic(auto, unfolding(crate::specs::Category::in_category))]
    pub(crate) fn holds(self, c: char) -> bool
        ensures { result ≡ in_category self c }
    {
        self.stands_for(GeneralCategory::for_char(c))
    }

    /// Whether the code holds the characters of this general category of Unicode.
    #[tactic(auto, unfolding(crate::specs::Category::stands_for))]
    fn stands_for(self, value: GeneralCategory) -> bool
        ensures { result ≡ stands_for self value }
    {
        match self {
            Category::L => GeneralCategoryGroup::Letter.contains(value),
            Category::Ll => value == GeneralCategory::LowercaseLetter,
            Category::Lm => value == GeneralCategory::ModifierLetter,
            Category::Lo => value == GeneralCategory::OtherLetter,
            Category::Lt => value == GeneralCategory::TitlecaseLetter,
            Category::Lu => value == GeneralCategory::UppercaseLetter,
            Category::M => GeneralCategoryGroup::Mark.contains(value),
            Category::Mc => value == GeneralCategory::SpacingMark,
            Category::Me => value == GeneralCategory::EnclosingMark,
            Category::Mn => value == GeneralCategory::NonspacingMark,
            Category::N => GeneralCategoryGroup::Number.contains(value),
            Category::Nd => value == GeneralCategory::DecimalNumber,
            Category::Nl => value == GeneralCategory::LetterNumber,
            Category::No => value == GeneralCategory::OtherNumber,
            Category::P => GeneralCategoryGroup::Punctuation.contains(value),
            Category::Pc => value == GeneralCategory::ConnectorPunctuation,
            Category::Pd => value == GeneralCategory::DashPunctuation,
            Category::Pe => value == GeneralCategory::ClosePunctuation,
            Category::Pf => value == GeneralCategory::FinalPunctuation,
            Category::Pi => value == GeneralCategory::InitialPunctuation,
            Category::Po => value == GeneralCategory::OtherPunctuation,
            Category::Ps => value == GeneralCategory::OpenPunctuation,
            Category::Z => GeneralCategoryGroup::Separator.contains(value),
            Category::Zl => value == GeneralCategory::LineSeparator,
            Category::Zp => value == GeneralCategory::ParagraphSeparator,
            Category::Zs => value == GeneralCategory::SpaceSeparator,
            Category::S => GeneralCategoryGroup::Symbol.contains(value),
            Category::Sc => value == GeneralCategory::CurrencySymbol,
            Category::Sk => value == GeneralCategory::ModifierSymbol,
            Category::Sm => value == GeneralCategory::MathSymbol,
            Category::So => value == GeneralCategory::OtherSymbol,
            Category::C => GeneralCategoryGroup::Other.contains(value),
            Category::Cc => value == GeneralCategory::Control,
            Category::Cf => value == GeneralCategory::Format,
            Category::Cn => value == GeneralCategory::Unassigned,
            Category::Co => value == GeneralCategory::PrivateUse,
        }
    }

    /// The code with these letters.
    #[tactic(auto, unfolding(crate::specs::Private::CodeReading::code_of))]
    pub(crate) fn of_letters(first: char, second: Option<char>) -> Option<Category>
        ensures { result ≡ code_of first second }
    {
        Category::ALL
            .iter()
            .copied()
            .find(|code| code.has_letters(first, second))
    }

    /// Whether the code is written with these letters, where None says that there is no second one.
    fn has_letters(self, first: char, second: Option<char>) -> bool
        ensures { result ≡ is_pair first second (letters self) }
    {
        self.letters() == (first, second)
    }

    /// The letters that write the code; a code of several general categories has one letter alone.
    #[tactic(auto, unfolding(crate::specs::Codes::letters))]
    fn letters(self) -> (char, Option<char>)
        ensures { letters self ≡ pair result.0 result.1 }
    {
        match self {
            Category::L => ('L', None),
            Category::Ll => ('L', Some('l')),
            Category::Lm => ('L', Some('m')),
            Category::Lo => ('L', Some('o')),
            Category::Lt => ('L', Some('t')),
            Category::Lu => ('L', Some('u')),
            Category::M => ('M', None),
            Category::Mc => ('M', Some('c')),
            Category::Me => ('M', Some('e')),
            Category::Mn => ('M', Some('n')),
            Category::N => ('N', None),
            Category::Nd => ('N', Some('d')),
            Category::Nl => ('N', Some('l')),
            Category::No => ('N', Some('o')),
            Category::P => ('P', None),
            Category::Pc => ('P', Some('c')),
            Category::Pd => ('P', Some('d')),
            Category::Pe => ('P', Some('e')),
            Category::Pf => ('P', Some('f')),
            Category::Pi => ('P', Some('i')),
            Category::Po => ('P', Some('o')),
            Category::Ps => ('P', Some('s')),
            Category::Z => ('Z', None),
            Category::Zl => ('Z', Some('l')),
            Category::Zp => ('Z', Some('p')),
            Category::Zs => ('Z', Some('s')),
            Category::S => ('S', None),
            Category::Sc => ('S', Some('c')),
            Category::Sk => ('S', Some('k')),
            Category::Sm => ('S', Some('m')),
            Category::So => ('S', Some('o')),
            Category::C => ('C', None),
            Category::Cc => ('C', Some('c')),
            Category::Cf => ('C', Some('f')),
            Category::Cn => ('C', Some('n')),
            Category::Co => ('C', Some('o')),
        }
    }
}
