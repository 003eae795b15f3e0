// What recognised revenue takes of a company: its operating price by the management rule, and its yearly costs.
ghost use Rattle.std.specs.Prelude.{◌≡◌};

use company::terms::Terms;
use management::rule::Management;
use management::traits::Traits;
use revenue::company_costs::Costs;

pub(crate) fn costs_of<M: Management>(rule: &M, terms: &Terms) -> Costs
    ensures operating { result.operating.0
        ≡ M.Management.price rule.now terms.now.figures.points terms.now.figures.density terms.now.figures.year }
    ensures verification { result.verification ≡ terms.now.figures.verification }
    ensures central { result.central ≡ terms.now.figures.central }
{
    let figures = terms.figures();
    let traits = Traits::new(
        figures.points,
        u64::from(figures.density),
        u64::from(figures.year),
    )
    .unwrap();
    let price = rule.operating_price(traits);
    Costs::new(price, figures.verification, figures.central).unwrap()
}
