// Service and form: the kind of batch that they make.
ghost use Rattle.std.specs.Prelude.{◌≡◌, Some};
ghost use Rattle.layout.specs.Pairs.{boleto_service, pairs, batch_among, batch_of};

use super::Direction;

#[derive(Clone, Copy)]
pub enum Batch {
    Credit,
    Boleto,
    Collection,
}

const CREDIT_SERVICE: u64 = 20;

const COLLECTION_SERVICE: u64 = 29;

const COLLECTION_FORM: u64 = 11;

fn boleto_service(dir: Direction) -> u64
    ensures { result ≡ boleto_service dir }
{
    match dir {
        Direction::Remittance => 3,
        Direction::Return => 1,
    }
}

// The kind of batch of a service and a form, where they make one.
pub fn batch_with(dir: Direction, service: u64, form: u64) -> Option<Batch>
    ensures { result ≡ batch_among (pairs dir) (Some service) (Some form) }
{
    let credit_form = (form == 1) | ((form == 10) | ((form == 41) | (form == 45)));
    if (service == CREDIT_SERVICE) & credit_form {
        return Some(Batch::Credit);
    }
    let boleto_form = (form == 30) | (form == 31);
    if (service == boleto_service(dir)) & boleto_form {
        return Some(Batch::Boleto);
    }
    if (service == COLLECTION_SERVICE) & (form == COLLECTION_FORM) {
        return Some(Batch::Collection);
    }
    None
}

// The kind of batch of a service and a form as they stand in a batch header.
#[tactic(auto, unfolding(crate::specs::Pairs::batch_of))]
pub fn batch_of(dir: Direction, service: &[u8], form: &[u8]) -> Option<Batch>
    ensures { result ≡ batch_of dir service.now form.now }
{
    batch_with(dir, digits::number_of(service)?, digits::number_of(form)?)
}
