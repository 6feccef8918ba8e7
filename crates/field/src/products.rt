// dot on elements: the words of the factors go to the limbs of 64 or of 32 bits, and the product's words come back.
ghost use Rattle.std.specs.Prelude.{◌≡◌};
ghost use Rattle.gf2.specs.Polyval.{dot};
ghost use Rattle.field.specs.Element.{value, element, words, element_of_words};

use crate::field_element::FieldElement;
use word::Words;

// An element has the fields of Words, and is a type of its own all the same: it has bytes, a sum and products, which the words of limbs have not.
impl From<FieldElement> for Words {
    ghost from_gives = { λ e w. w ≡ words e };

    fn from(e: FieldElement) -> Words {
        Words { lo: e.lo, hi: e.hi }
    }
}

impl From<Words> for FieldElement {
    ghost from_gives = { λ w e. e ≡ element_of_words w };

    fn from(w: Words) -> FieldElement {
        FieldElement { lo: w.lo, hi: w.hi }
    }
}

impl FieldElement {
    // a b x^-128 (RFC 8452, section 3), by 64-bit limbs.
    pub fn dot(self, rhs: FieldElement) -> FieldElement
        ensures { result ≡ element (dot (value self) (value rhs)) }
    {
        limbs::mul64::dot(self.into(), rhs.into()).into()
    }

    // As dot answers, by 32-bit limbs: two calls, as the crate's page promises, over one body each in limbs.
    pub fn dot32(self, rhs: FieldElement) -> FieldElement
        ensures { result ≡ element (dot (value self) (value rhs)) }
    {
        limbs::mul32::dot32(self.into(), rhs.into()).into()
    }
}
