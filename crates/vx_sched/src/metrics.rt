//! Counts of what a reader was asked.
ghost use Rattle.std.specs.Prelude.{◌≡◌};
ghost use Rattle.vx_sched.specs.Metrics.{with_span, with_call};

/// How many spans of one read there were, spans of several, and reads in the latter; and how many
/// calls of a reader, calls for several ranges, and ranges. Each stands still at its last value.
#[derive(Clone, Copy, Debug, PartialEq, Eq)]
pub struct RequestMetrics {
    pub individual_requests: u64,
    pub coalesced_requests: u64,
    pub num_requests_coalesced: u64,
    pub read_ranges_calls: u64,
    pub read_ranges_multi: u64,
    pub read_ranges_num_ranges: u64,
}

impl RequestMetrics {
    /// Nothing was asked.
    pub fn new() -> RequestMetrics
        ensures { result ≡ record {
          individual_requests = 0;
          coalesced_requests = 0;
          num_requests_coalesced = 0;
          read_ranges_calls = 0;
          read_ranges_multi = 0;
          read_ranges_num_ranges = 0;
        } }
    {
        RequestMetrics {
            individual_requests: 0,
            coalesced_requests: 0,
            num_requests_coalesced: 0,
            read_ranges_calls: 0,
            read_ranges_multi: 0,
            read_ranges_num_ranges: 0,
        }
    }

    /// Counts a span of so many reads.
    pub fn add_span(&mut self, reads: usize)
        ensures { self.new ≡ with_span reads self.old }
    {
        if reads < 2 {
            self.individual_requests = self.individual_requests.saturating_add(1);
            return;
        }
        self.coalesced_requests = self.coalesced_requests.saturating_add(1);
        self.num_requests_coalesced = self.num_requests_coalesced.saturating_add(reads as u64);
    }

    /// Counts a call for so many ranges.
    pub fn add_call(&mut self, ranges: usize)
        ensures { self.new ≡ with_call ranges self.old }
    {
        let multi = if ranges < 2 { 0 } else { 1 };
        self.read_ranges_calls = self.read_ranges_calls.saturating_add(1);
        self.read_ranges_multi = self.read_ranges_multi.saturating_add(multi);
        self.read_ranges_num_ranges = self.read_ranges_num_ranges.saturating_add(ranges as u64);
    }
}
