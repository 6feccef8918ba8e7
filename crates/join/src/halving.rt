// An element multiplied n times by another, by halving n: the digits of n choose which squares take part,
// and the last squaring, which no digit would use, is not made. `Multiplied::by` alone makes a dot, and it
// alone moves the count.
ghost use Rattle.std.specs.Prelude.{◌≡◌};
ghost use Rattle.field.specs.Element.{value};
ghost use Rattle.join.specs.Halving.{multiplied, chosen, halved, multiplied_by};

use field::FieldElement;

// The product so far, the square for the lowest digit of `left`, the digits to go, and the dots spent.
#[derive(Clone, Copy)]
pub struct Halving {
    pub product: FieldElement,
    pub square: FieldElement,
    pub left: u64,
    pub dots: u64,
}

// A product, and the dots spent on it: a type of its own, as feeding's are, so that dots stay dots.
#[derive(Clone, Copy)]
pub struct Multiplied {
    pub product: FieldElement,
    pub dots: u64,
}

impl Multiplied {
    // The one counted dot: multiplies the product by h, and adds one to the count.
    fn by(self, h: FieldElement) -> Multiplied
        ensures { result ≡ multiplied self (value h) }
    {
        Multiplied {
            product: self.product.dot(h),
            dots: self.dots.wrapping_add(1),
        }
    }
}

impl Halving {
    // What is counted goes on from the dots that were spent so far.
    fn counting(self, product: FieldElement) -> Multiplied
        ensures { result ≡ record { product = product; dots = self.dots } }
    {
        Multiplied {
            product,
            dots: self.dots,
        }
    }

    // The lowest digit: where it is 1, its square is multiplied in.
    fn choose(self) -> Halving
        ensures { result ≡ chosen self }
    {
        if self.left % 2 != 1 {
            return self;
        }
        let made = self.counting(self.product).by(self.square);
        Halving {
            product: made.product,
            dots: made.dots,
            ..self
        }
    }

    // On to the next digit, with its square, if there is one.
    fn halve(self) -> Halving
        ensures { result ≡ halved self }
    {
        if self.left <= 1 {
            return Halving { left: 0, ..self };
        }
        let made = self.counting(self.square).by(self.square);
        Halving {
            square: made.product,
            left: self.left / 2,
            dots: made.dots,
            ..self
        }
    }
}

// a multiplied n times by h, with at most 127 dots.
pub fn times(a: FieldElement, h: FieldElement, n: u64) -> Multiplied
    ensures { result ≡ multiplied_by (value h) n (value a) }
{
    let mut state = Halving {
        product: a,
        square: h,
        left: n,
        dots: 0,
    };
    // A while: the state says when the digits have run out, and no range does.
    while 0 < state.left {
        state = state.choose().halve();
    }
    state.counting(state.product)
}
