// The two services of a distributor.
ghost use Rattle.std.specs.Prelude.{◌≡◌, length};

#[derive(Clone, Copy, Debug, PartialEq, Eq)]
pub enum Service {
    Distribution,
    Metering,
}

impl Service {
    ghost use Rattle.tables.specs.Services.{of_service, row_count};

    /// What belongs to the service of things by asset row: the first five are those of distribution.
    pub fn part<T>(self, by_row: &[T; 8]) -> &[T]
        ensures value { result.now ≡ of_service self by_row.now }
        ensures len { length result.now ≡ row_count self }
    {
        let (distribution, metering) = by_row.split_at(5);
        match self {
            Service::Distribution => distribution,
            Service::Metering => metering,
        }
    }
}
