//! ONU data, class 2.
ghost use Rattle.std.specs.Prelude.{◌∷◌, [], refl};
ghost use Rattle.std.proofs.Common.{rules};

use crate::instances::attribute;
use managed_entity::{
    Attribute, Bytes, Class, ManagedEntity, Refusal, byte, check_set, get_contents, mask_of, one,
    set, set_values,
};
use omci_msg::Request;
use std::alloc::{AllocError, Global};

/// ONU data (ITU-T G.988, clause 9.1.3).
#[derive(Clone, Copy, Default)]
pub(crate) struct OnuData {
    /// The MIB data sync: the count of changes, 1 after 255.
    pub(crate) sync: u8,
}

impl OnuData {
    ghost use Rattle.std.specs.Option.{option_and_then};
    ghost use Rattle.std.specs.Prelude.{◌≡◌, ◌<◌, Err, IfSome, drop, is_ok, is_some, length, option_map, slice_get, true};
    ghost use Rattle.managed_entity.specs.declared.refusal.Refusal.TheVariants.{NotSupported};
    ghost use Rattle.managed_entity.specs.Answer.{outcome_of, left_by};
    ghost use Rattle.managed_entity.specs.Class.{onu_data_layout, width_at};
    ghost use Rattle.managed_entity.specs.Instance.{value_at};
    ghost use Rattle.mib_state.specs.Entities.{find, next, onu_data, place_in, sync_of};
    ghost use Rattle.mib_state.specs.Step.{next_sync, get_found, set_in};
    ghost use Rattle.managed_entity.specs.Mask.{mask_of};

    /// Counts a change: 255 is followed by 1.
    pub(crate) fn count(&mut self)
        ensures { self.new.sync ≡ next_sync self.old.sync }
    {
        self.sync = self.sync.checked_add(1).unwrap_or(1);
    }

    /// The least number that isn't under another; there is instance 0 alone.
    pub(crate) fn next(&self, from: u16) -> Option<u16>
        ensures { result ≡ next from (onu_data self.now.sync ∷ []) }
    {
        if from == 0 { Some(0) } else { None }
    }

    /// The number of the instance at a place; there is instance 0 alone.
    pub(crate) fn number_at(&self, place: usize) -> Option<u16>
        ensures number { result ≡ option_map (λ (i : _). i.number)
            (slice_get (onu_data self.now.sync ∷ []) place) }
        ensures room { IfSome result (λ number. place < 1) }
    {
        if place == 0 { Some(0) } else { None }
    }

    /// The attribute at a place of the instance at another.
    pub(crate) fn attribute_at(&self, at: usize, place: usize) -> Option<Bytes>
        ensures value { option_map (λ (bytes : _). bytes.items) result
            ≡ value_at onu_data_layout place (slice_get (onu_data self.now.sync ∷ []) at) }
        ensures width { IfSome result (λ bytes. length bytes.items
            ≡ width_at onu_data_layout place) }
    {
        if at == 0 {
            attribute(self, place)
        } else {
            None
        }
    }

    /// The attribute at a place of the instance of a number.
    pub(crate) fn attribute(&self, number: u16, place: usize) -> Option<Bytes>
        ensures value { option_map (λ (bytes : _). bytes.items) result
            ≡ value_at onu_data_layout place (find number (onu_data self.now.sync ∷ [])) }
        ensures width { IfSome result (λ bytes. length bytes.items
            ≡ width_at onu_data_layout place) }
    {
        if number == 0 {
            attribute(self, place)
        } else {
            None
        }
    }

    /// The place of the instance of a number; there is instance 0 alone.
    pub(crate) fn place_of(&self, number: u16) -> Option<usize>
        ensures place { result ≡ place_in number (onu_data self.now.sync ∷ []) }
        ensures instance { option_and_then
            (λ (place : _). slice_get (onu_data self.now.sync ∷ []) place) result
            ≡ find number (onu_data self.now.sync ∷ []) }
        ensures held { is_some result ≡ is_some (find number (onu_data self.now.sync ∷ [])) }
        ensures room { IfSome result (λ place. place < 1) }
    {
        if number == 0 { Some(0) } else { None }
    }

    /// Whether a Create is refused, which it always is.
    pub(crate) fn check_create(&self, _request: &Request) -> Result<(), Refusal>
        ensures { result ≡ Err NotSupported }
    {
        Err(Refusal::NotSupported)
    }

    /// No Create is accepted.
    pub(crate) fn create(&mut self, _request: &Request)
        ensures { self.new ≡ self.old }
    {}

    /// Whether a Delete is refused, which it always is.
    pub(crate) fn check_delete(&self, _request: &Request) -> Result<(), Refusal>
        ensures { result ≡ Err NotSupported }
    {
        Err(Refusal::NotSupported)
    }

    /// No Delete is accepted.
    pub(crate) fn delete(&mut self, _request: &Request)
        ensures { self.new ≡ self.old }
    {}

    /// The answer to a Get; there is instance 0 alone.
    pub(crate) fn read(&self, request: &Request) -> Result<[u8; 32], Refusal>
        ensures { result ≡ get_found onu_data_layout (mask_of request.now.contents)
            (find request.now.instance (onu_data self.now.sync ∷ [])) }
    {
        if request.instance != 0 {
            return Err(Refusal::UnknownInstance);
        }
        Ok(get_contents(self, mask_of(&request.contents)))
    }

    /// Whether a Set is refused; there is instance 0 alone.
    #[tactic(auto, unfolding(crate::specs::Step::set_in), using(crate::proofs::Setting::set_outcome))]
    pub(crate) fn check_set(&self, request: &Request) -> Result<(), Refusal>
        ensures { result ≡ outcome_of (set_in onu_data_layout request.now.instance
            (mask_of request.now.contents) (drop 2 request.now.contents) (onu_data self.now.sync
            ∷ [])) }
    {
        if request.instance != 0 {
            return Err(Refusal::UnknownInstance);
        }
        check_set(
            self,
            mask_of(&request.contents),
            set_values(&request.contents),
        )
    }

    /// Writes the attributes that a Set names, which isn't refused.
    #[tactic(auto, unfolding(crate::specs::Step::set_in))]
    pub(crate) fn set(&mut self, request: &Request)
        requires { is_ok (set_in onu_data_layout request.now.instance
            (mask_of request.now.contents) (drop 2 request.now.contents) (onu_data self.old.sync
            ∷ []))
            ≡ true }
        ensures { self.new.sync ≡ sync_of (left_by (onu_data self.old.sync ∷ [])
            (set_in onu_data_layout request.now.instance (mask_of request.now.contents)
            (drop 2 request.now.contents) (onu_data self.old.sync ∷ []))) }
    {
        if request.instance == 0 {
            set(
                self,
                mask_of(&request.contents),
                set_values(&request.contents),
            );
        }
    }
}

impl ManagedEntity for OnuData {
    ghost use Rattle.managed_entity.specs.Class.{onu_data_layout};

    ghost layout = { onu_data_layout };

    ghost values = { λ s. (s.sync ∷ []) ∷ [] };

    ghost entries = { λ s. [] };

    const ROOM: usize = 1;

    ghost ROOM = { 1 };

    const GIVEN: u16 = 0;

    ghost GIVEN = { 0 };

    ghost counts = { λ s. refl };

    ghost fits_mask = { Prim.search rules };

    ghost entries_fit = { refl };

    ghost given_is = { refl };

    ghost given_writable = { refl };

    ghost given_fits = { Prim.search rules };

    fn layout() -> &'static [Attribute] {
        Class::OnuData.layout()
    }

    fn new(_alloc: Global) -> Result<Self, AllocError> {
        Ok(Self::default())
    }

    fn reset(&mut self) {
        *self = Self::default();
    }

    fn returned(&self, place: usize) -> Option<Bytes> {
        match place {
            0 => Some(one(self.sync)),
            _ => None,
        }
    }

    fn set_attribute(&mut self, place: usize, bytes: &[u8]) {
        if place == 0 {
            self.sync = byte(bytes);
        }
    }

    fn check_entry(&self, _entry: &[u8]) -> Result<(), Refusal> {
        Err(Refusal::NotSupported)
    }

    fn put_entry(&mut self, _entry: &[u8]) {}
}
