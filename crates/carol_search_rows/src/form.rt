//! Forms, the linear parts of rows: each stands once, whatever rows have it.

use crate::list::{add, at, get, get_mut};
use crate::number::{common_divisor, floor, negated};
use crate::stop::Stop;
use std::alloc::Global;

/// A variable or another form by its number, with its coefficient.
#[derive(Debug, Clone, Copy, PartialEq, Eq)]
pub struct Product {
    pub form: usize,
    pub times: i128,
}

/// How a row was reached.
#[derive(Debug, Clone, Copy, PartialEq, Eq)]
pub enum Reason {
    /// The row of a `Le` or an `Eq`, as it stands.
    Given(usize),
    /// The row of an `Eq` with its sign turned.
    Reversed(usize),
    /// The row `t + 1 <= 0` of a `Ne`.
    Negative(usize),
    /// The row `1 - t <= 0` of a `Ne`.
    Positive(usize),
    /// The row of a branch with its number.
    Branch(usize),
    /// The cut with its number.
    Cut(usize),
    /// A part is the sum of its variables.
    Link,
}

/// A bound of a form.
#[derive(Debug, Clone, Copy)]
pub struct Bound {
    pub value: i128,
    pub reason: Reason,
}

/// What a form is.
#[derive(Debug, Clone, Copy, PartialEq, Eq)]
pub enum Kind {
    /// A variable.
    Variable,
    /// What a row says of one group of variables.
    Part,
    /// The linear part of a row, over variables and parts.
    Whole,
}

/// A form, its bounds, and its number in the present model.
#[derive(Debug, Drop)]
pub struct Form {
    pub kind: Kind,
    /// The form over variables.
    pub variables: Vec<Product>,
    /// The form over variables and parts.
    pub parts: Vec<Product>,
    pub lower: Option<Bound>,
    pub upper: Option<Bound>,
    pub value: i128,
    /// It has a number of its own, and is not only the sum of its parts.
    pub has_value: bool,
    /// How many forms with bounds use the part.
    pub uses: usize,
    /// The row of the tableau that has it on the left.
    pub row: Option<usize>,
    /// The column of the tableau that it has.
    pub column: Option<usize>,
    /// It is listed among the forms with bounds.
    pub is_listed: bool,
    /// A row of the tableau says that the part is the sum of its variables.
    pub is_linked: bool,
    // The next form whose parts have the same mark, in the list of all forms.
    next: Option<usize>,
}

impl Form {
    fn new(kind: Kind, variables: Vec<Product>, parts: Vec<Product>) -> Form {
        Form {
            kind,
            variables,
            parts,
            lower: None,
            upper: None,
            value: 0,
            has_value: kind == Kind::Variable,
            uses: 0,
            row: None,
            column: None,
            is_listed: false,
            is_linked: false,
            next: None,
        }
    }

    /// The bound on one side.
    pub fn bound(&self, is_upper: bool) -> Option<Bound> {
        if is_upper { self.upper } else { self.lower }
    }
}

// How many chains of forms there are.
const CHAINS: usize = 256;

/// All forms. The first are the variables.
#[derive(Debug, Drop)]
pub struct Forms {
    pub list: Vec<Form>,
    // The last form of each chain of forms whose parts have the same mark.
    chains: Vec<Option<usize>>,
    // The group of each variable.
    groups: Vec<u32>,
}

// A mark of the products, which is the same for equal ones.
fn mark_of(products: &[Product]) -> usize {
    let mut mark = 17u64;
    for product in products {
        let form = product.form as u64;
        let times = (product.times.unsigned_abs() % 1_000_003) as u64;
        mark = mark.wrapping_mul(1_000_003) ^ form.wrapping_mul(31) ^ times;
        mark ^= mark >> 17;
    }
    (mark % CHAINS as u64) as usize
}

/// The number that divides each coefficient.
pub fn divisor_of(products: &[Product]) -> Result<i128, Stop> {
    let mut divisor = 0;
    for product in products {
        divisor = common_divisor(product.times, divisor)?;
        if divisor == 1 {
            break;
        }
    }
    Ok(divisor)
}

/// The products with their coefficients divided by a number above 0 that divides them, with the
/// sign turned where it is asked for.
pub fn divided(
    alloc: Global,
    products: &[Product],
    divisor: i128,
    is_turned: bool,
) -> Result<Vec<Product>, Stop> {
    let mut list = Vec::new(alloc);
    for product in products {
        let times = floor(product.times, divisor)?;
        let times = if is_turned { negated(times)? } else { times };
        add(&mut list, Product { times, ..*product })?;
    }
    Ok(list)
}

// Puts the products in the order of their forms.
fn sort(products: &mut Vec<Product>) -> Result<(), Stop> {
    match products.sort_by_key(|product| product.form) {
        Ok(()) => Ok(()),
        Err(_) => Err(Stop::NoMemory),
    }
}

// Whether the first coefficient is below 0.
fn is_turned(products: &[Product]) -> bool {
    match products.first() {
        Some(product) => product.times < 0,
        None => false,
    }
}

/// A form with a sign: the form itself, or what is left where its sign is turned.
#[derive(Debug, Clone, Copy)]
pub struct Signed {
    pub form: usize,
    pub is_turned: bool,
}

impl Forms {
    /// The variables with their groups.
    pub fn new(alloc: Global, groups: Vec<u32>) -> Result<Forms, Stop> {
        let mut list = Vec::new(alloc);
        for form in 0..groups.len() {
            let mut variables = Vec::new(alloc);
            add(&mut variables, Product { form, times: 1 })?;
            add(
                &mut list,
                Form::new(Kind::Variable, variables, Vec::new(alloc)),
            )?;
        }
        let mut chains = Vec::new(alloc);
        for _ in 0..CHAINS {
            add(&mut chains, None)?;
        }
        Ok(Forms {
            list,
            chains,
            groups,
        })
    }

    // The form of the kind with these parts, if there is one.
    fn found(&self, kind: Kind, parts: &[Product]) -> Result<Option<usize>, Stop> {
        let mut next = at(&self.chains, mark_of(parts))?;
        for _ in 0..self.list.len() {
            let Some(number) = next else {
                return Ok(None);
            };
            let form = get(&self.list, number)?;
            if form.kind == kind && form.parts.as_slice() == parts {
                return Ok(Some(number));
            }
            next = form.next;
        }
        Ok(None)
    }

    /// Adds a form.
    pub fn push(
        &mut self,
        kind: Kind,
        variables: Vec<Product>,
        parts: Vec<Product>,
    ) -> Result<usize, Stop> {
        let number = self.list.len();
        let mark = mark_of(&parts);
        let mut form = Form::new(kind, variables, parts);
        form.next = at(&self.chains, mark)?;
        add(&mut self.list, form)?;
        let chain = get_mut(&mut self.chains, mark)?;
        *chain = Some(number);
        Ok(number)
    }

    // The form of the kind with these variables and parts.
    fn placed(
        &mut self,
        kind: Kind,
        variables: Vec<Product>,
        parts: Vec<Product>,
    ) -> Result<usize, Stop> {
        match self.found(kind, &parts)? {
            Some(number) => Ok(number),
            None => self.push(kind, variables, parts),
        }
    }

    // What a row says of one group of variables: a variable or a part, with its coefficient.
    fn part(&mut self, alloc: Global, group: Vec<Product>) -> Result<Product, Stop> {
        if group.len() == 1 {
            return at(&group, 0);
        }
        let divisor = divisor_of(&group)?;
        let turned = is_turned(&group);
        let variables = divided(alloc, &group, divisor, turned)?;
        let parts = divided(alloc, &group, divisor, turned)?;
        let form = self.placed(Kind::Part, variables, parts)?;
        let times = if turned { negated(divisor)? } else { divisor };
        Ok(Product { form, times })
    }

    // The products over variables, whose coefficients have no common divisor, over variables and
    // parts.
    fn parted(&mut self, alloc: Global, products: &[Product]) -> Result<Vec<Product>, Stop> {
        let mut parts = Vec::new(alloc);
        let mut group = Vec::new(alloc);
        let mut last = None;
        for product in products {
            let mark = at(&self.groups, product.form)?;
            if last != Some(mark) && !group.is_empty() {
                let part = self.part(alloc, group)?;
                add(&mut parts, part)?;
                group = Vec::new(alloc);
            }
            last = Some(mark);
            add(&mut group, *product)?;
        }
        if !group.is_empty() {
            let part = self.part(alloc, group)?;
            add(&mut parts, part)?;
        }
        sort(&mut parts)?;
        Ok(parts)
    }

    /// The form of products over variables, by ascending variable, that have no common divisor.
    pub fn signed(&mut self, alloc: Global, products: &[Product]) -> Result<Signed, Stop> {
        let parts = self.parted(alloc, products)?;
        if parts.len() == 1 {
            let part = at(&parts, 0)?;
            return Ok(Signed {
                form: part.form,
                is_turned: part.times < 0,
            });
        }
        let turned = is_turned(&parts);
        let variables = divided(alloc, products, 1, turned)?;
        let parts = divided(alloc, &parts, 1, turned)?;
        let form = self.placed(Kind::Whole, variables, parts)?;
        Ok(Signed {
            form,
            is_turned: turned,
        })
    }

    /// Adds the form that is 0 where the part is the sum of its variables.
    pub fn link(&mut self, alloc: Global, part: usize) -> Result<usize, Stop> {
        let mut parts = Vec::new(alloc);
        add(
            &mut parts,
            Product {
                form: part,
                times: 1,
            },
        )?;
        for product in &get(&self.list, part)?.parts {
            let times = negated(product.times)?;
            add(&mut parts, Product { times, ..*product })?;
        }
        let form = self.push(Kind::Whole, Vec::new(alloc), parts)?;
        let link = Some(Bound {
            value: 0,
            reason: Reason::Link,
        });
        let made = get_mut(&mut self.list, form)?;
        made.lower = link;
        made.upper = link;
        get_mut(&mut self.list, part)?.is_linked = true;
        Ok(form)
    }
}
