//! Whether multipliers pay: what they cost, and what they save, in counted work. No clock is asked, so a search makes the
//! same decisions on every run. The unit is a term that is looked at, some 10 nanoseconds.
//!
//! Multipliers make covers, knapsacks and assignments faster by factors of ten to a thousand, and cost as much where rows
//! decide everything. What they save at a node that they close is not known, since that node is not searched. So now and then
//! such a node is searched without them, as a trial, and every closing counts as much as the mean trial.

/// What a node of the search costs beside its literals. An estimate, as are the next two.
const WORK_OF_A_NODE: u64 = 80;

/// What a literal that joins the trail costs the search.
const WORK_OF_A_LITERAL: u64 = 2;

/// What multipliers cost at a node beside the terms that are looked at for them.
const WORK_OF_A_USE: u64 = 16;

/// The search's work divided by this is what multipliers may cost even where they save nothing: so where they are useless the
/// search takes about an eighth longer at most, beside the credit, and where they come to be useful that is still seen.
const ALLOWANCE: u64 = 8;

/// What multipliers may cost before they have saved anything, some milliseconds, so that nobody notices where it is wasted.
const CREDIT: u64 = 200_000;

/// What they may cost besides, for each term of the rows, since where there are many it takes long until a first node is closed.
const CREDIT_OF_A_TERM: u64 = 400;

/// About how many closings there are to a trial, once there were many, so that trials are a few hundredths of the search.
const TRIAL_INTERVAL: u64 = 32;

/// The fewest closings from one trial to the next: half of `TRIAL_INTERVAL`, so that the first means soon rest on some trials.
const FIRST_INTERVAL: u64 = 16;

/// How many times the mean cost of a closing a trial takes at most: by then it is clear that multipliers pay, however long the
/// trial would still take.
const TRIAL_LIMIT: u64 = 2;

/// How many fixed literals count as much as one closing, since each of them saves one side of a decision that might not have
/// been made. Chosen by hand.
const FIXINGS_OF_A_CLOSING: u64 = 8;

/// After how much work all counts are halved, so that what was long ago soon counts for little. Not before twice the credit, or
/// else that could never be spent. 2^23, the work of about a tenth of a second.
const FADING: u64 = 8_388_608;

/// What is left of a great credit in the end. It is for the first closings, since a credit that stays would be spent again after
/// each halving, and be a part of all work.
const LASTING_CREDIT: u64 = FADING / 4;

/// A node that the multipliers could close and that is searched without them all the same, to see what they save.
#[derive(Clone, Copy)]
struct Trial {
    /// The number of assumptions at the node.
    level: usize,
    /// What the search below it has cost so far.
    work: u64,
}

/// What the search costs without multipliers, what they cost, and what they seem to have saved: the mean work of the trials for
/// each closing.
#[derive(Clone, Copy)]
pub struct Effort {
    credit: u64,
    search: u64,
    spent: u64,
    saved: u64,
    closings: u64,
    /// At which closing the next trial begins.
    next_trial: u64,
    trials: u64,
    /// The work of all trials.
    tried: u64,
    trial: Option<Trial>,
}

impl Effort {
    /// Nothing counted yet, beside rows with `terms` terms in all.
    pub fn new(terms: u64) -> Effort {
        Effort {
            credit: CREDIT.saturating_add(terms.saturating_mul(CREDIT_OF_A_TERM)),
            search: 0,
            spent: 0,
            saved: 0,
            closings: 0,
            next_trial: FIRST_INTERVAL,
            trials: 0,
            tried: 0,
            trial: None,
        }
    }

    /// Whether multipliers are to be used now: no trial is under way, and they have cost no more than they may.
    pub fn is_open(&self) -> bool {
        self.trial.is_none() && self.affords(0)
    }

    /// What multipliers cost and did not save counts no more, so that all of the credit is there again. The mean saving of a
    /// closing stays known.
    pub fn forgive(&mut self) {
        self.spent = self.spent.min(self.saved);
    }

    /// Whether multipliers saved what they cost, or cost little so far.
    pub fn pays(&self) -> bool {
        self.spent <= self.saved.saturating_add(self.credit)
    }

    /// Whether multipliers may cost `work` more.
    pub fn affords(&self, work: u64) -> bool {
        let allowed = self
            .credit
            .saturating_add(self.search / ALLOWANCE)
            .saturating_add(self.saved);
        self.spent.saturating_add(work) <= allowed
    }

    /// Counts a node of the search at which `literals` literals joined the trail.
    pub fn count_search(&mut self, literals: usize) {
        let work = work_of_node(literals);
        self.search = self.search.saturating_add(work);
        self.count_trial(work);
        self.fade();
    }

    /// Adds to the work of the trial that is under way, if any, and ends it where it takes too much.
    fn count_trial(&mut self, work: u64) {
        let limit = self.mean_cost().saturating_mul(TRIAL_LIMIT);
        let Some(trial) = &mut self.trial else {
            return;
        };
        trial.work = trial.work.saturating_add(work);
        let is_over = trial.work >= limit;
        if is_over {
            self.end_trial();
        }
    }

    /// Counts a node at which multipliers were used, and `terms` terms were looked at for them.
    pub fn count_use(&mut self, terms: usize) {
        self.count_multipliers((terms as u64).saturating_add(WORK_OF_A_USE));
    }

    /// Counts `terms` terms that were looked at for multipliers.
    pub fn count_multipliers(&mut self, terms: u64) {
        self.spent = self.spent.saturating_add(terms);
    }

    /// Answers whether a node at this level, which the multipliers alone would close, is closed. Where it is not, a trial begins:
    /// the node is searched without them.
    pub fn close(&mut self, level: usize) -> bool {
        self.closings = self.closings.saturating_add(1);
        if self.closings < self.next_trial {
            self.saved = self.saved.saturating_add(self.mean_saving());
            return true;
        }
        // The interval grows with the closings, since the mean of many trials changes little by one more.
        let interval = self.trials.max(FIRST_INTERVAL).min(TRIAL_INTERVAL);
        let later = (self.closings / TRIAL_INTERVAL).saturating_add(interval);
        self.next_trial = self.closings.saturating_add(later);
        self.trial = Some(Trial { level, work: 0 });
        false
    }

    /// The multipliers fix a literal.
    pub fn fix(&mut self) {
        let saving = self.mean_saving() / FIXINGS_OF_A_CLOSING;
        self.saved = self.saved.saturating_add(saving);
    }

    /// The search is back at this level, so a trial further down is over.
    pub fn step_back(&mut self, level: usize) {
        if self.trial.is_some_and(|trial| level < trial.level) {
            self.end_trial();
        }
    }

    /// Ends the trial that is under way.
    fn end_trial(&mut self) {
        if let Some(trial) = self.trial.take() {
            self.trials = self.trials.saturating_add(1);
            self.tried = self.tried.saturating_add(trial.work);
        }
    }

    /// What multipliers cost for each closing.
    fn mean_cost(&self) -> u64 {
        self.spent / self.closings.max(1)
    }

    /// What a closing saves, by the trials.
    fn mean_saving(&self) -> u64 {
        self.tried / self.trials.max(1)
    }

    /// Halves all counts where search and multipliers took enough work since the last time.
    fn fade(&mut self) {
        let limit = self.credit.saturating_mul(2).max(FADING);
        if self.search.saturating_add(self.spent) < limit {
            return;
        }
        if self.credit > LASTING_CREDIT {
            self.credit = (self.credit / 2).max(LASTING_CREDIT);
        }
        self.search /= 2;
        self.spent /= 2;
        self.saved /= 2;
        self.closings /= 2;
        self.next_trial /= 2;
        self.trials /= 2;
        self.tried /= 2;
    }
}

/// What a node of the search costs at which `literals` literals joined the trail.
pub fn work_of_node(literals: usize) -> u64 {
    WORK_OF_A_NODE.saturating_add((literals as u64).saturating_mul(WORK_OF_A_LITERAL))
}
